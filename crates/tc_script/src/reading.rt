// Reads a script from the bytes of a file.
ghost use Rattle.std.specs.Prelude.{◌≡◌, ◌<◌, ◌≤◌, ◌^◌, IsTrue, IfOk, length, map, slice_get};
ghost use Rattle.tcd_plan.specs.PlanData.{IsPlan, is_plan_irq};
ghost use Rattle.tc_script.specs.ScriptsFitPlans.{FitsPlan};
ghost use Rattle.tc_script.specs.Statements.{HasOrderedBounds};
ghost use Rattle.tc_script.specs.ScriptText.{initial_script_draft, with_turns, may_set_bounds, with_bounds, script_draft_after_statement, script_draft_after_line, GivesScriptDraft, script_of, GivesScript};
ghost use Rattle.tc_script.specs.Ports.{initial_answer_bounds};

use crate::statements::{Statement, script_statement_in};
use crate::{AnswerRange, Script, ScriptErr, Turn};
use arrayvec::ArrayVec;
use std::alloc::Global;
use tcd_plan::{Device, Plan};
use tcd_text::cut_line;

/// What was read so far, and whether a misaligned access traps in the turns that follow.
#[derive(Drop)]
pub(crate) struct Draft {
    pub(crate) script: Script,
    pub(crate) aln: bool,
}

/// Returns the bounds of peripherals' answers until the script sets others: each one's `lo` alone.
fn initial_script_bounds(devices: &[Device]) -> ArrayVec<AnswerRange, 16>
    requires { length devices.now ≤ 16 }
    ensures { result.items ≡ map initial_answer_bounds devices.now }
{
    let mut bounds = ArrayVec::new();
    for device in devices {
        bounds.push(AnswerRange {
            lo: device.lo,
            hi: device.lo,
        });
    }
    bounds
}

/// Returns true if the interrupt of a script's line `irq P` is one of the plan's.
fn is_plan_irq(plan: &Plan, irq: u8) -> bool
    ensures { result ≡ is_plan_irq plan.now irq }
{
    plan.irqs.iter().any(|q| *q == irq)
}

/// Returns true if the plan has a peripheral number `device`, and the bounds `lo` and `hi` of a
/// script's line are inside the peripheral's own.
fn may_set_bounds(devices: &[Device], device: usize, lo: u32, hi: u32) -> bool
    ensures value { result ≡ may_set_bounds (slice_get devices.now device) lo hi }
    ensures there { IsTrue result → device < length devices.now }
{
    match devices.get(device) {
        Some(device) => device.lo <= lo && hi <= device.hi,
        None => false,
    }
}

impl Draft {
    /// Returns the draft of a script before its first line is read.
    fn new(alloc: Global, plan: &Plan) -> Draft
        ensures begun { result ≡ initial_script_draft plan.now }
        ensures plan { IsPlan plan.now }
    {
        Draft {
            script: Script {
                turns: Vec::new(alloc),
                bounds: initial_script_bounds(plan.devices.as_slice()),
            },
            aln: false,
        }
    }

    /// Reads line `number` of a script and applies its statement to the draft, or returns the
    /// line's error.
    fn read_line(&mut self, plan: &Plan, number: u32, line: &[u8]) -> Result<(), ScriptErr>
        requires { length self.old.script.bounds ≡ length plan.now.devices }
        ensures read { GivesScriptDraft result self.new
            (script_draft_after_line plan.now number line.now self.old) }
        ensures devices { length self.new.script.bounds ≡ length self.old.script.bounds }
    {
        match script_statement_in(line) {
            Some(said) => self.apply_statement(plan, number, said),
            None => Err(ScriptErr::BadLine(number)),
        }
    }

    /// Applies the statement `said` of a script's line to the draft: adds turns, or sets bounds or
    /// the trap of misaligned accesses. An error has the line's number `line`.
    #[tactic(auto, unfolding(crate::specs::ScriptText::script_draft_after_statement))]
    fn apply_statement(&mut self, plan: &Plan, line: u32, said: Statement) -> Result<(), ScriptErr>
        requires ordered { HasOrderedBounds said }
        requires devices { length self.old.script.bounds ≡ length plan.now.devices }
        ensures stated { GivesScriptDraft result self.new
            (script_draft_after_statement plan.now line said self.old) }
        ensures devices { length self.new.script.bounds ≡ length self.old.script.bounds }
    {
        match said {
            Statement::Blank => Ok(()),
            Statement::Step(n) => self.add_turns(line, n, 0),
            Statement::Irq(irq) => {
                if !is_plan_irq(plan, irq) {
                    return Err(ScriptErr::NoSource(line));
                }
                self.add_turns(line, 1, irq)
            }
            Statement::Aln(aln) => {
                self.aln = aln;
                Ok(())
            }
            Statement::In { device, lo, hi } => {
                let place = device as usize;
                if !may_set_bounds(plan.devices.as_slice(), place, lo, hi) {
                    return Err(ScriptErr::OutOfRange(line));
                }
                self.set_bounds(place, lo, hi);
                Ok(())
            }
        }
    }

    /// Adds `count` turns that request the interrupt `irq`, 0 for none. Returns `TooMany` with the
    /// line's number `line` if the script would then have more than 100,000 turns.
    fn add_turns(&mut self, line: u32, count: u32, irq: u8) -> Result<(), ScriptErr>
        ensures turns { GivesScriptDraft result self.new (with_turns line count irq self.old) }
        ensures devices { length self.new.script.bounds ≡ length self.old.script.bounds }
    {
        let before = self.script.turns.len();
        let after = before + count as usize;
        if after > 100_000 {
            return Err(ScriptErr::TooMany(line));
        }
        self.script
            .turns
            .resize(after, Turn { irq, aln: self.aln })?;
        Ok(())
    }

    /// Sets the bounds of what peripheral number `device` answers in the script that is read.
    fn set_bounds(&mut self, device: usize, lo: u32, hi: u32)
        requires there { device < length self.old.script.bounds }
        requires ordered { lo ≤ hi }
        ensures { self.new ≡ with_bounds device lo hi self.old }
    {
        self.script.bounds[device] = AnswerRange { lo, hi };
    }
}

impl Script {
    /// Reads a script from the bytes of a file.
    /// Its lines are `step N`, `irq P`, `aln 0`, `aln 1`, `in DEVICE LO HI`, or empty. The error is
    /// that of the first bad line, and there the first one in the order of `ScriptErr`.
    pub fn read(alloc: Global, bytes: &[u8], plan: &Plan) -> Result<Script, ScriptErr>
        requires { length bytes.now ≤ 2 ^ 30 }
        ensures script { GivesScript result (script_of plan.now bytes.now) }
        ensures fits { IfOk result (FitsPlan plan.now) }
    {
        let mut draft = Draft::new(alloc, plan);
        let mut rest = bytes;
        let mut number = 0;
        'lines: while !rest.is_empty() {
            let (line, behind) = cut_line(rest);
            number += 1;
            draft.read_line(plan, number, line)?;
            rest = behind;
        }
        let Draft { script, aln: _ } = draft;
        Ok(script)
    }
}
