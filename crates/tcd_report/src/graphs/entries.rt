// The entries of the frames that an instruction enters.
ghost use Rattle.std.specs.Prelude.{◌≡◌, OnOk};
ghost use Rattle.tc_isa.specs.InBounds.{IsShapeInBounds};
ghost use Rattle.value_domain.specs.State.{AreInLattice};
ghost use Rattle.cfg_recover.specs.Duties.{misaligned_duties_of};
ghost use Rattle.tcd_report.specs.Graphs.{entries_by_rule, misaligned_rule, entries_of_kind};

use crate::judged::Judged;
use cfg_recover::{aln_key, may_be_misaligned};
use depth_cert::Key;
use tc_isa::Shape;
use tcd_base::NoMemory;
use value_domain::State;

/// Sets `all` to the entry addresses of the frames among `keys` that have this kind, as `CALL`, for
/// the graph's lines.
pub(crate) fn set_kind_entries(all: &mut Vec<u32>, keys: &[Key], kind: u8) -> Result<(), NoMemory>
    ensures { OnOk result (all.new.items ≡ entries_of_kind kind keys.now) }
{
    all.clear();
    for key in keys {
        if key.kind == kind {
            all.push(key.entry)?;
        }
    }
    Ok(())
}

/// Sets `all` to the entry of the handler of misaligned accesses, for the graph's `aln` line.
/// Empties `all` if the instruction has no access that may be misaligned.
pub(crate) fn set_misaligned_entry(
    all: &mut Vec<u32>,
    judged: &Judged,
    key: &Key,
    s: &State,
    shape: Shape,
) -> Result<(), NoMemory>
    requires values { AreInLattice judged.now.bounds.now s.now.regs }
    requires shape { IsShapeInBounds shape }
    ensures { let j = judged.now in OnOk result (all.new.items
        ≡ entries_by_rule misaligned_rule
        (misaligned_duties_of j.bounds.now j.plan.now key.now s.now shape)) }
{
    all.clear();
    if may_be_misaligned(judged.bounds, judged.plan, s, shape) {
        all.push(aln_key(judged.plan, key).entry)?;
    }
    Ok(())
}
