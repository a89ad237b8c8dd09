// The graph of a certificate as text.
ghost use Rattle.std.specs.Prelude.{◌≡◌, [], Contains, OnOk, string_bytes};
ghost use Rattle.tcd_plan.specs.PlanData.{PlanData};
ghost use Rattle.std.specs.Str.{IsAscii};
ghost use Rattle.value_domain.specs.State.{AreInLattice};
ghost use Rattle.cfg_recover.specs.LocalFaults.{IsFaultless};
ghost use Rattle.tcd_report.specs.Graphs.{ArePointLines, AreNodeLines, node_line_prefix};
ghost use Rattle.tcd_report.specs.Graphs.KnownHandlers.{AreValidHandlers};
ghost use Rattle.tcd_report.specs.Judging.{IsAcceptedWithLimits};
ghost use Rattle.tcd_report.specs.Texts.{GrowsByLines};
ghost use Rattle.depth_cert.specs.Points.{point_of};

use crate::graphs::edges::{Edges, find_edges};
use crate::graphs::handlers::{no_handlers, set_handler_line_prefix};
use crate::graphs::lines::{
    append_edges, append_ret_line, set_node_line_prefix, set_point_line_prefix,
};
use crate::judged::Judged;
use cfg_recover::KnownCodes;
use depth_cert::Key;
use packed_cert::{Node, PointWalk};
use std::alloc::Global;
use tcd_base::NoMemory;
use value_domain::State;

/// The graph so far, and what the lines of the point at hand are made of.
#[derive(Drop)]
pub(crate) struct Drawing {
    pub(crate) text: String,
    /// The front of all lines of the node at hand.
    pub(crate) key_front: String,
    /// The front of all lines of the point at hand.
    pub(crate) front: String,
    pub(crate) ways: Edges,
}

/// Returns a graph without lines, to which the lines of nodes are then appended.
pub(crate) fn empty_drawing(alloc: Global) -> Drawing
    ensures text { string_bytes result.text ≡ [] }
    ensures handlers { (plan : PlanData) → AreValidHandlers plan result.ways.irq }
{
    Drawing {
        text: String::new(alloc),
        key_front: String::new(alloc),
        front: String::new(alloc),
        ways: Edges {
            to: Vec::new(alloc),
            call: Vec::new(alloc),
            back: Vec::new(alloc),
            sys: Vec::new(alloc),
            aln: Vec::new(alloc),
            irq: no_handlers(alloc),
            found: Vec::new(alloc),
            keys: Vec::new(alloc),
        },
    }
}

/// Appends the lines of a certificate's node, a kind of frame, to the text of the graph. `codes`
/// caches decoded instructions, and `walk` is scratch space.
pub(crate) fn append_node_lines<'a>(
    graph: &mut Drawing,
    judged: &Judged,
    codes: &mut KnownCodes,
    node: &Node<'a>,
    walk: &mut PointWalk<'a>,
) -> Result<(), NoMemory>
    requires judged { IsAcceptedWithLimits judged.now }
    requires stands { Contains judged.now.cert.now.nodes node.now }
    requires handlers { AreValidHandlers judged.now.plan.now graph.old.ways.irq }
    ensures lines { let j = judged.now in
        OnOk result (GrowsByLines (AreNodeLines j.image.now j.plan.now j.cert.now node.now)
        (string_bytes graph.old.text) (string_bytes graph.new.text)) }
    ensures handlers { OnOk result (AreValidHandlers judged.now.plan.now graph.new.ways.irq) }
{
    set_node_line_prefix(&mut graph.key_front, &node.key)?;
    node.start_walk(walk);
    while let Some(addr) = walk.advance() {
        append_point_lines(graph, judged, codes, &node.key, addr, walk.state())?;
    }
    Ok(())
}

// Appends the lines of the point at `addr` with state `s` in the frame of `key` to the text of the
// graph. `codes` caches decoded instructions.
fn append_point_lines(
    graph: &mut Drawing,
    judged: &Judged,
    codes: &mut KnownCodes,
    key: &Key,
    addr: u32,
    s: &State,
) -> Result<(), NoMemory>
    requires judged { IsAcceptedWithLimits judged.now }
    requires values { AreInLattice judged.now.bounds.now s.now.regs }
    requires faultless { let j = judged.now in
        IsFaultless j.bounds.now j.image.now j.plan.now key.now addr s.now }
    requires front { string_bytes graph.old.key_front ≡ node_line_prefix key.now }
    requires ascii { IsAscii (node_line_prefix key.now) }
    requires handlers { AreValidHandlers judged.now.plan.now graph.old.ways.irq }
    ensures lines { let j = judged.now in
        OnOk result (GrowsByLines
        (ArePointLines j.image.now j.plan.now j.cert.now key.now (point_of addr s.now))
        (string_bytes graph.old.text) (string_bytes graph.new.text)) }
    ensures front { OnOk result (string_bytes graph.new.key_front ≡ node_line_prefix key.now) }
    ensures handlers { OnOk result (AreValidHandlers judged.now.plan.now graph.new.ways.irq) }
{
    let Some(found) = codes.decode_cached(judged.image, judged.plan, addr) else {
        unreachable!()
    };
    find_edges(&mut graph.ways, judged, key, addr, s, &found)?;
    set_point_line_prefix(&mut graph.front, graph.key_front.as_str(), addr)?;
    set_handler_line_prefix(&mut graph.ways.irq, graph.front.as_str())?;
    append_edges(&mut graph.text, graph.front.as_str(), &graph.ways)?;
    append_ret_line(&mut graph.text, graph.front.as_str(), found.shape)
}
