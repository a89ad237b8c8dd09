// Ranks of nodes: in their order one pass finds all needs, unless a node is reached from itself.
ghost use Rattle.std.specs.Prelude.{◌≡◌, ℕ, IsTrue, slice_index};
ghost use Rattle.frame_places.specs.NodeGraph.{IsRecursiveNode};

use crate::needs::reach::{FrameEdge, predecessors};
use indexmap::IndexMap;
use std::alloc::{AllocError, Global};

/// Returns a topological rank for each node of the call graph: less than the ranks of the nodes
/// entered, or 0 if a cycle is reached.
pub fn topological_ranks(
    alloc: Global,
    nodes: usize,
    edges: &[FrameEdge],
) -> Result<Vec<usize>, AllocError> {
    let sources = predecessors(alloc, edges)?;
    let mut left = vec![in alloc; 0usize; nodes]?;
    for edge in edges {
        if let Some(count) = left.get_mut(edge.node) {
            *count = count.saturating_add(1);
        }
    }
    let mut work = Vec::new(alloc);
    for node in 0..nodes {
        if get_or_zero(left.as_slice(), node) == 0 {
            work.push(node)?;
        }
    }
    let mut ranks = vec![in alloc; 0usize; nodes]?;
    for rank in (0..nodes).rev() {
        let Some(node) = work.pop() else {
            break;
        };
        if let Some(place) = ranks.get_mut(node) {
            *place = rank;
        }
        queue_freed_predecessors(&sources, node, &mut left, &mut work)?;
    }
    Ok(ranks)
}

/// Returns the number that a list has at a node's index, or 0 past the end.
pub fn get_or_zero(numbers: &[usize], node: usize) -> usize
    ensures { result ≡ slice_index numbers.now node }
{
    match numbers.get(node) {
        Some(number) => *number,
        None => 0,
    }
}

/// Returns true only if each edge of the call graph leads to a node of higher rank. Then the graph
/// is acyclic, and no frame is recursive.
pub(crate) fn are_ranks_rising(ranks: &[usize], edges: &[FrameEdge]) -> bool
    ensures { IsTrue result → (k : ℕ) → IsRecursiveNode edges.now k → ⊥ }
{
    for edge in edges {
        if get_or_zero(ranks, edge.node) >= get_or_zero(ranks, edge.into) {
            return false;
        }
    }
    true
}

/// After `node` got its rank, lowers in `left` each predecessor's count of unranked successors, and
/// queues predecessors with none left: a step of topological sorting.
fn queue_freed_predecessors(
    sources: &IndexMap<usize, Vec<usize>>,
    node: usize,
    left: &mut [usize],
    work: &mut Vec<usize>,
) -> Result<(), AllocError> {
    let Some(list) = sources.get(&node) else {
        return Ok(());
    };
    for source in list {
        if let Some(count) = left.get_mut(*source) {
            *count = count.saturating_sub(1);
            if *count == 0 {
                work.push(*source)?;
            }
        }
    }
    Ok(())
}
