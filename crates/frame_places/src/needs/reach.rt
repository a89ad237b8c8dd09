// The call graph of frames, by the numbers of its nodes: which nodes are reached from which. Its
// edges are entries of frames by calls, interrupts and traps.
ghost use Rattle.std.specs.Prelude.{◌≡◌, ◌<◌, ◌↔◌, ℕ, IsTrue, IfOk, OnOk, length, slice_index_or, false, Contains, [], ◌∷◌, ◌+◌};
ghost use Rattle.frame_places.specs.NodeGraph.{AddsEdges, AddsPredecessor, ArePredecessorsBelow, AreEdgesBelow, AreEdgesOfRows, AreReachingMarks, AreReachingByPredecessors, ArePredecessors, HasMarkedSuccessor, IsFirstRecursiveNodeBefore, IsFirstRecursiveNode, IsRecursiveNode, MarksAndQueuesUnmarked, CompletesBackwardSearch, IsNodeMarked};

use crate::needs::ranks::are_ranks_rising;
use crate::needs::row::NeedRow;
use indexmap::{IndexMap, IndexSet};
use std::alloc::{AllocError, AllocFailed, Global};

/// A node, and one that it enters.
#[derive(Clone, Copy, Debug, PartialEq, Eq, Hash)]
pub struct FrameEdge {
    pub node: usize,
    pub into: usize,
}

/// Returns the edges of the call graph of frames, each once: from a row's frame to each frame that
/// its point enters by a call, an interrupt or a trap.
pub fn frame_edges(
    alloc: Global,
    rows: &[NeedRow],
) -> Result<IndexSet<FrameEdge>, AllocFailed<FrameEdge>>
    ensures { IfOk result (λ edges. AreEdgesOfRows rows.now edges.keys) }
{
    let mut edges = IndexSet::new(alloc);
    for row in rows {
        add_edges(&mut edges, row.node, row.into.as_slice())?;
    }
    Ok(edges)
}

/// Returns a mark for each of the `nodes` frames of the call graph with these edges: true for the
/// frames from which `node` is reached.
pub fn reaching_marks(
    alloc: Global,
    nodes: usize,
    edges: &[FrameEdge],
    node: usize,
) -> Result<Vec<bool>, AllocError>
    requires node { node < nodes }
    requires edges { AreEdgesBelow edges.now nodes }
    ensures { IfOk result (λ marks. AreReachingMarks edges.now nodes node marks.items) }
{
    let sources = predecessors(alloc, edges)?;
    reaching_marks_by_predecessors(alloc, nodes, &sources, node)
}

/// Returns whether one of these nodes of the call graph is marked; a number past the end of `marks`
/// isn't.
pub fn has_marked_node(marks: &[bool], nodes: &[usize]) -> bool
    ensures { IsTrue result ↔ ((t : ℕ) × Contains nodes.now t × IsNodeMarked marks.now t) }
{
    for node in nodes {
        if is_marked_node(marks, *node) {
            return true;
        }
    }
    false
}

/// Returns the node on a cycle of the call graph with the least number in `orders`, or `None`
/// without a cycle. If the topological `ranks` rise along all edges, there is none.
pub fn first_recursive_node(
    alloc: Global,
    orders: &[u64],
    edges: &[FrameEdge],
    ranks: &[usize],
) -> Result<Option<usize>, AllocError>
    requires { AreEdgesBelow edges.now (length orders.now) }
    ensures { IfOk result (IsFirstRecursiveNode orders.now edges.now) }
{
    if are_ranks_rising(ranks, edges) {
        return Ok(None);
    }
    let sources = predecessors(alloc, edges)?;
    let mut first = None;
    for node in 0..orders.len() {
        first = first_recursive_node_up_to(alloc, orders, edges, &sources, node, first)?;
    }
    Ok(first)
}

/// Adds to the call graph of frames an edge from `node` to each frame in `into`, which a point of
/// that node enters.
fn add_edges(
    edges: &mut IndexSet<FrameEdge>,
    node: usize,
    into: &[usize],
) -> Result<(), AllocFailed<FrameEdge>>
    ensures { OnOk result (AddsEdges edges.old.keys edges.new.keys node into.now) }
{
    for t in into {
        edges.insert(FrameEdge { node, into: *t })?;
    }
    Ok(())
}

/// Returns a map from each node of the call graph that is entered to its predecessors, the nodes
/// with an edge to that node.
pub(crate) fn predecessors(
    alloc: Global,
    edges: &[FrameEdge],
) -> Result<IndexMap<usize, Vec<usize>>, AllocError>
    ensures { IfOk result (λ sources. ArePredecessors edges.now sources) }
{
    let mut sources = IndexMap::new(alloc);
    for edge in edges {
        add_predecessor(alloc, &mut sources, *edge)?;
    }
    Ok(sources)
}

/// Returns true marks for the nodes of the call graph from which `node` is reached, by a backward
/// search. `sources` has the predecessors of each node.
fn reaching_marks_by_predecessors(
    alloc: Global,
    nodes: usize,
    sources: &IndexMap<usize, Vec<usize>>,
    node: usize,
) -> Result<Vec<bool>, AllocError>
    requires node { node < nodes }
    requires sources { ArePredecessorsBelow sources.now nodes }
    ensures { IfOk result (λ marks. AreReachingByPredecessors sources.now nodes node marks.items) }
{
    let mut marks = vec![in alloc; false; nodes]?;
    marks[node] = true;
    let mut work = Vec::new(alloc);
    work.push(node)?;
    mark_reaching_nodes(&mut marks, &mut work, sources)?;
    Ok(marks)
}

/// Adds the source of an edge of the call graph to the predecessors of its target in `sources`.
fn add_predecessor(
    alloc: Global,
    sources: &mut IndexMap<usize, Vec<usize>>,
    edge: FrameEdge,
) -> Result<(), AllocError>
    ensures { OnOk result (AddsPredecessor sources.old sources.new edge.node edge.into) }
{
    if let Some(list) = sources.get_mut(&edge.into) {
        list.push(edge.node)?;
        return Ok(());
    }
    let mut list = Vec::new(alloc);
    list.push(edge.node)?;
    sources.insert(edge.into, list)?;
    Ok(())
}

/// Marks all nodes of the call graph from which a node of the queue `work` is reached, and empties
/// the queue. `sources` has the predecessors of each node.
fn mark_reaching_nodes(
    marks: &mut [bool],
    work: &mut Vec<usize>,
    sources: &IndexMap<usize, Vec<usize>>,
) -> Result<(), AllocError>
    requires { ArePredecessorsBelow sources.now (length marks.old) }
    ensures { OnOk result (CompletesBackwardSearch sources.now marks.old marks.new work.old.items) }
{
    while let Some(node) = work.pop() {
        if let Some(list) = sources.get(&node) {
            mark_and_queue_nodes(marks, work, list.as_slice())?;
        }
    }
    Ok(())
}

/// Marks these nodes of the call graph, and appends those that weren't marked before to the queue
/// `work` of the backward search.
fn mark_and_queue_nodes(
    marks: &mut [bool],
    work: &mut Vec<usize>,
    nodes: &[usize],
) -> Result<(), AllocError>
    requires { (k : ℕ) → Contains nodes.now k → k < length marks.old }
    ensures { OnOk result (MarksAndQueuesUnmarked nodes.now marks.old marks.new work.old.items
        work.new.items) }
{
    for node in nodes {
        mark_and_queue_node(marks, work, *node)?;
    }
    Ok(())
}

/// Marks a node of the call graph, and appends the node to the queue `work` of the backward search
/// unless marked before.
fn mark_and_queue_node(
    marks: &mut [bool],
    work: &mut Vec<usize>,
    node: usize,
) -> Result<(), AllocError>
    requires { node < length marks.old }
    ensures { OnOk result
        (MarksAndQueuesUnmarked (node ∷ []) marks.old marks.new work.old.items work.new.items) }
{
    if !marks[node] {
        marks[node] = true;
        work.push(node)?;
    }
    Ok(())
}

/// Returns whether a node of the call graph is marked; false for a number without a node.
fn is_marked_node(marks: &[bool], node: usize) -> bool
    ensures { result ≡ slice_index_or marks.now node false }
{
    match marks.get(node) {
        Some(mark) => *mark,
        None => false,
    }
}

/// Returns the recursive node of the call graph with the least number in `orders`, among the nodes
/// up to `node`. `first` is that of the nodes before; `sources` has the predecessors of each node.
fn first_recursive_node_up_to(
    alloc: Global,
    orders: &[u64],
    edges: &[FrameEdge],
    sources: &IndexMap<usize, Vec<usize>>,
    node: usize,
    first: Option<usize>,
) -> Result<Option<usize>, AllocError>
    requires edges { AreEdgesBelow edges.now (length orders.now) }
    requires sources { ArePredecessors edges.now sources.now }
    requires node { node < length orders.now }
    requires first { IsFirstRecursiveNodeBefore orders.now edges.now node first }
    ensures { IfOk result (IsFirstRecursiveNodeBefore orders.now edges.now (node + 1)) }
{
    if let Some(other) = first {
        if orders[other] <= orders[node] {
            return Ok(Some(other));
        }
    }
    if is_recursive_node(alloc, orders.len(), edges, sources, node)? {
        Ok(Some(node))
    } else {
        Ok(first)
    }
}

/// Returns whether a node lies on a cycle of the call graph, so that its frame is recursive.
/// `sources` has the predecessors of each node.
fn is_recursive_node(
    alloc: Global,
    nodes: usize,
    edges: &[FrameEdge],
    sources: &IndexMap<usize, Vec<usize>>,
    node: usize,
) -> Result<bool, AllocError>
    requires node { node < nodes }
    requires edges { AreEdgesBelow edges.now nodes }
    requires sources { ArePredecessors edges.now sources.now }
    ensures { IfOk result (λ recurs. IsTrue recurs ↔ IsRecursiveNode edges.now node) }
{
    let marks = reaching_marks_by_predecessors(alloc, nodes, sources, node)?;
    Ok(has_marked_successor(marks.as_slice(), edges, node))
}

/// Returns whether a node of the call graph has an edge to a marked node.
fn has_marked_successor(marks: &[bool], edges: &[FrameEdge], node: usize) -> bool
    requires { AreEdgesBelow edges.now (length marks.now) }
    ensures { IsTrue result ↔ HasMarkedSuccessor marks.now edges.now node }
{
    for edge in edges {
        if edge.node == node && marks[edge.into] {
            return true;
        }
    }
    false
}
