// The addresses where a point goes on, by the words of its lines.
ghost use Rattle.std.specs.Prelude.{OnOk};
ghost use Rattle.tc_isa.specs.InBounds.{IsShapeInBounds};
ghost use Rattle.value_domain.specs.State.{AreInLattice};
ghost use Rattle.tcd_report.specs.Graphs.{AreEdges};
ghost use Rattle.tcd_report.specs.Graphs.KnownHandlers.{AreValidHandlers};
ghost use Rattle.tcd_report.specs.Judging.{duties_at};
ghost use Rattle.depth_cert.specs.Points.{point_of};

use crate::graphs::addresses::{set_sorted_addresses, set_unique_addresses};
use crate::graphs::entries::{set_kind_entries, set_misaligned_entry};
use crate::graphs::handlers::{Handlers, find_handlers};
use crate::graphs::successors::{push_successors, set_return_addresses};
use crate::judged::Judged;
use cfg_recover::{Located, push_entered_keys};
use depth_cert::{CALL, Key, SYS};
use tcd_base::NoMemory;
use value_domain::State;

/// The addresses where a point goes on, by the words of its lines, and room for finding them. The
/// lists are used again for each point.
#[derive(Drop)]
pub(crate) struct Edges {
    pub(crate) to: Vec<u32>,
    pub(crate) call: Vec<u32>,
    pub(crate) back: Vec<u32>,
    pub(crate) sys: Vec<u32>,
    pub(crate) aln: Vec<u32>,
    pub(crate) irq: Handlers,
    /// Room for addresses in the order in which they are found.
    pub(crate) found: Vec<u32>,
    /// The frames that the point enters by a call or a system call.
    pub(crate) keys: Vec<Key>,
}

/// Sets `ways` to the edges from the point at `addr` with abstract state `s`, grouped by the
/// graph's words for edges, as `to` or `call`. `found` is the point's decoded instruction.
pub(crate) fn find_edges(
    ways: &mut Edges,
    judged: &Judged,
    key: &Key,
    addr: u32,
    s: &State,
    found: &Located,
) -> Result<(), NoMemory>
    requires shape { IsShapeInBounds found.now.shape }
    requires values { AreInLattice judged.now.bounds.now s.now.regs }
    requires handlers { AreValidHandlers judged.now.plan.now ways.old.irq }
    ensures edges { let j = judged.now in OnOk result
        (AreEdges j.cert.now (duties_at j key.now (point_of addr s.now) found.now) ways.new) }
    ensures handlers { OnOk result (AreValidHandlers judged.now.plan.now ways.new.irq) }
{
    ways.found.clear();
    push_successors(&mut ways.found, judged, addr, s, found)?;
    set_sorted_addresses(&mut ways.to, &ways.found)?;
    ways.keys.clear();
    push_entered_keys(&mut ways.keys, judged.plan, key, addr, s, found.shape)?;
    set_kind_entries(&mut ways.found, &ways.keys, CALL)?;
    set_sorted_addresses(&mut ways.call, &ways.found)?;
    set_kind_entries(&mut ways.found, &ways.keys, SYS)?;
    set_unique_addresses(&mut ways.sys, &ways.found)?;
    set_return_addresses(
        &mut ways.found,
        judged.cert,
        &ways.keys,
        addr.wrapping_add(found.size),
    )?;
    set_unique_addresses(&mut ways.back, &ways.found)?;
    set_misaligned_entry(&mut ways.aln, judged, key, s, found.shape)?;
    find_handlers(&mut ways.irq, &mut ways.found, judged.plan, s)
}
