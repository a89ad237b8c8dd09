// The worklist algorithm: visits all points with work.
ghost use Rattle.std.specs.Prelude.{◌≡◌, IfOk, IfErr, None};
ghost use Rattle.indexmap.specs.IndexMap.{get};
ghost use Rattle.frame_places.specs.declared.places.Spot.{Spot};
ghost use Rattle.frame_places.specs.Spots.{spot_eq};
ghost use Rattle.cfg_recover.specs.SetOperations.{IsCorrectCache};
ghost use Rattle.depth_maker.specs.TableInvariant.{TableInvariantHoldsForInputs, IsLeastFixpointTable};
ghost use Rattle.depth_maker.specs.Answers.{NamesDerivedFault};
ghost use Rattle.depth_maker.specs.Visits.{IsNoVisitOpen, VisitsNextPlace, VisitsListedPlaces};

use crate::covered::CoveredEntries;
use crate::inputs_and_limits::Ground;
use crate::interrupt_contexts::LastInterrupts;
use crate::table::{Table, initial_table_capacity};
use crate::visit::visit_place;
use cfg_recover::{KnownCodes, OperationCache, start_key, start_state};
use frame_places::{
    Refusal, Spot, Work, add_queued_place, begin_visit, end_visit, is_place_queued,
};
use indexmap::IndexMap;
use small_states::{Incoming, ScratchState, SmallKnown};
use std::alloc::Global;
use vd_transfer::{Change, identity_change};

/// Room that visits write over: the state of the point, and the known words of code.
#[derive(Drop)]
pub(crate) struct VisitScratch {
    pub(crate) state: ScratchState,
    pub(crate) codes: KnownCodes,
}

/// Runs the maker's worklist algorithm: returns the table of the least fixpoint, or a refusal with
/// a rule that fails on the way. Never inlined: its stack is free when needs are computed.
#[inline(never)]
pub(crate) fn least_fixpoint(alloc: Global, ground: &Ground) -> Result<Table, Refusal>
    ensures ok { IfOk result (IsLeastFixpointTable ground.now) }
    ensures err { IfErr result (NamesDerivedFault ground.now) }
{
    let mut table = initial_table(alloc, ground)?;
    let mut scratch = VisitScratch {
        state: ScratchState::new(start_state(ground.plan)),
        codes: KnownCodes::new(),
    };
    while visit_listed_places(alloc, ground, &mut table, &mut scratch)? {}
    Ok(table)
}

/// Returns the maker's first table: only the start state is known, at the image's entry, and that
/// point is on the work list.
#[inline(never)]
fn initial_table(alloc: Global, ground: &Ground) -> Result<Table, Refusal>
    ensures ok { IfOk result (λ t. TableInvariantHoldsForInputs ground.now t × IsNoVisitOpen t) }
    ensures err { IfErr result (NamesDerivedFault ground.now) }
{
    let key = start_key(ground.image, ground.plan);
    let place = Spot::Point(key, key.entry);
    let start = start_state(ground.plan);
    let same = identity_change(&start);
    let incoming = Incoming::Changed(&start, &same);
    let cell = SmallKnown::new(alloc, ground.bounds, &incoming)?;
    let mut places = IndexMap::with_capacity(alloc, initial_table_capacity(ground.image))?;
    let mut work = Work::new(alloc);
    let mut points = Vec::new(alloc);
    let mut frames = Vec::new(alloc);
    let calls = Vec::new(alloc);
    points.push(place)?;
    frames.push(key)?;
    add_queued_place(&mut places, &mut work, place, cell)?;
    Ok(Table {
        places,
        readers: empty_exit_readers(alloc),
        work,
        points,
        frames,
        covered: CoveredEntries {
            interrupts: LastInterrupts {
                last: None,
                before: None,
            },
            calls,
        },
        near: 0,
    })
}

/// Visits the places on the maker's work list, as many as are listed now and 1,024 more. Returns
/// whether some are left.
#[inline(never)]
fn visit_listed_places(
    alloc: Global,
    ground: &Ground,
    table: &mut Table,
    scratch: &mut VisitScratch,
) -> Result<bool, Refusal>
    requires fine { TableInvariantHoldsForInputs ground.now table.old }
    requires none { IsNoVisitOpen table.old }
    ensures { VisitsListedPlaces ground.now table.old table.new result }
{
    let mut change = identity_change(scratch.state.state());
    let mut cache = OperationCache::empty();
    for _done in 0..table.work.len() + 1024 {
        if !visit_next_place(alloc, ground, table, scratch, &mut change, &mut cache)? {
            return Ok(false);
        }
    }
    Ok(!table.work.is_empty())
}

/// Returns an empty map from exits to the points that read them: at the start of the fixpoint no
/// point reads an exit.
fn empty_exit_readers(alloc: Global) -> IndexMap<Spot, Vec<Spot>>
    ensures { (z : Spot) → get spot_eq result z ≡ None }
{
    IndexMap::new(alloc)
}

/// Takes the next place off the maker's work list, and visits the place unless its work is done.
/// Returns false if the list was empty. `scratch` and `change` are overwritten.
fn visit_next_place(
    alloc: Global,
    ground: &Ground,
    table: &mut Table,
    scratch: &mut VisitScratch,
    change: &mut Change,
    cache: &mut OperationCache,
) -> Result<bool, Refusal>
    requires fine { TableInvariantHoldsForInputs ground.now table.old }
    requires none { IsNoVisitOpen table.old }
    requires results { IsCorrectCache ground.now.bounds.now cache.old }
    ensures steps { VisitsNextPlace ground.now table.old table.new result }
    ensures results { IsCorrectCache ground.now.bounds.now cache.new }
{
    let Some(number) = table.work.pop()? else {
        return Ok(false);
    };
    if !is_place_queued(&table.places, number) {
        return Ok(true);
    }
    table.near = number;
    begin_visit(&mut table.places, number);
    let plain = visit_place(alloc, ground, table, scratch, change, cache)?;
    end_visit(&mut table.places, table.near, plain);
    Ok(true)
}
