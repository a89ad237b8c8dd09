// The rows of all points: the frames that each enters, by numbers, and its number of locals.
ghost use Rattle.std.specs.Prelude.{◌≡◌, ◌+◌, ◌<◌, List, IfOk, IsTrue, OnOk};
ghost use Rattle.indexmap.specs.IndexMap.{index_map_len};
ghost use Rattle.depth_cert.specs.declared.keys.Key.{Key};
ghost use Rattle.depth_cert.specs.WellFormed.{IsWellFormedState};
ghost use Rattle.frame_places.specs.Numbers.{frame_number_in};
ghost use Rattle.depth_maker.specs.InterruptHandlers.{AreNumberedHandlers};
ghost use Rattle.depth_maker.specs.VisitDuties.{IsFaultlessInstruction};
ghost use Rattle.depth_maker.specs.Rows.{AddsPointRow, AreRowFramesAmong, HasRowsOfFirst, IsTablePoint, IsRowOfTablePoint, IsRowOfVisitedPoint, HasListedOutline, HasFinishedTable, AreRowsOfTable};

use crate::entered_frames::entered_frame_keys;
use crate::inputs_and_limits::{Ground, Visit};
use crate::interrupt_handlers::{Handler, append_handlers_if_enabled};
use crate::table::Table;
use cfg_recover::{Located, check_local_rules, start_state};
use depth_cert::Key;
use frame_places::{
    Marked, NeedRow, Spot, entered_frame_numbers, frame_number_with_hint, is_plain_mark,
};
use indexmap::IndexMap;
use small_states::{Outline, ScratchState, SmallKnown};
use std::alloc::{AllocError, Global};

/// What rows are made from: a table without work, the numbers of its frames, and the handlers of
/// interrupts.
#[derive(Drop)]
pub(crate) struct Source<'a> {
    pub(crate) ground: &'a Ground<'a>,
    pub(crate) table: &'a Table,
    pub(crate) numbers: &'a IndexMap<Key, usize>,
    pub(crate) handlers: &'a [Handler],
}

/// A point of a table.
#[derive(Drop)]
pub(crate) struct KnownPoint<'a> {
    pub(crate) key: Key,
    pub(crate) addr: u32,
    /// The number of its frame.
    pub(crate) node: usize,
    /// What is known there, with its mark.
    pub(crate) known: &'a Marked<SmallKnown>,
}

/// Returns the row of the known point `at`, from which needs are computed: its frame, its number of
/// saved lower contexts, and the frames entered. `state` is overwritten.
pub(crate) fn point_row(
    alloc: Global,
    source: &Source,
    state: &mut ScratchState,
    at: &KnownPoint,
) -> Result<NeedRow, AllocError>
    requires source { HasFinishedTable source.now }
    requires at { IsTablePoint source.now at.now }
    ensures { IfOk result (IsRowOfTablePoint source.now at.now.key at.now.addr) }
{
    let g = source.ground;
    let cell = &at.known.value;
    cell.write_state(g.bounds, state);
    let v = Visit {
        ground: g,
        key: at.key,
        addr: at.addr,
        state: state.state(),
    };
    match check_local_rules(g.bounds, g.image, g.plan, &v.key, v.addr, v.state) {
        Ok(found) => Ok(visited_point_row(alloc, &v, source, at.node, &found)?),
        Err(_) => unreachable!(),
    }
}

/// Returns the visited point's row, from which needs are computed: its frame's number `node`, its
/// saved lower contexts, and the frames that the instruction `found` and interrupts enter.
fn visited_point_row(
    alloc: Global,
    v: &Visit,
    source: &Source,
    node: usize,
    found: &Located,
) -> Result<NeedRow, AllocError>
    requires found { IsFaultlessInstruction v.now found.now }
    requires well_formed { IsWellFormedState v.now.ground.now.bounds.now v.now.state.now }
    ensures { IfOk result (λ row. (frames : List Key)
        → AreNumberedHandlers v.now.ground.now.plan.now source.now.numbers.now
        source.now.handlers.now frames
        → AreRowFramesAmong v.now frames → node ≡ frame_number_in frames v.now.key
        → IsRowOfVisitedPoint v.now frames row) }
{
    let keys = entered_frame_keys(alloc, v, found)?;
    let more = source.handlers.len();
    let mut into = entered_frame_numbers(alloc, source.numbers, keys.as_slice(), more)?;
    append_handlers_if_enabled(&mut into, v.state.ie, v.state.ccpn, source.handlers)?;
    Ok(NeedRow {
        node,
        held: v.state.locals.len() as u8,
        into,
    })
}

/// Rows in the making.
#[derive(Drop)]
pub(crate) struct RowsDraft {
    rows: Vec<NeedRow>,
    /// For each frame by its number, the outline of its last plain point, whose row is in `rows`.
    outlines: Vec<Option<Outline>>,
    /// Room that states are read into.
    state: ScratchState,
    /// The number of the frame of the last point.
    node: usize,
}

/// Returns a row for each point of the finished table: its frame, its saved lower contexts, and the
/// frames entered. A row equal to an earlier one may be left out.
pub(crate) fn need_rows(alloc: Global, source: &Source) -> Result<Vec<NeedRow>, AllocError>
    requires { HasFinishedTable source.now }
    ensures { IfOk result (λ rows. AreRowsOfTable source.now.ground.now source.now.table.now
        rows.items) }
{
    let mut draft = RowsDraft {
        rows: Vec::new(alloc),
        outlines: vec![in alloc; None; source.table.frames.len()]?,
        state: ScratchState::new(start_state(source.ground.plan)),
        node: 0,
    };
    for entry in 0..source.table.places.len() {
        add_row_of_place(alloc, source, &mut draft, entry)?;
    }
    let RowsDraft { rows, .. } = draft;
    Ok(rows)
}

/// Appends to the draft the row (frame, saved lower contexts, entered frames) of the place with the
/// number `entry`. An exit adds none, nor does a point whose row is known to be listed.
#[inline(always)]
fn add_row_of_place(
    alloc: Global,
    source: &Source,
    draft: &mut RowsDraft,
    entry: usize,
) -> Result<(), AllocError>
    requires source { HasFinishedTable source.now }
    requires entry { entry < index_map_len source.now.table.now.places }
    requires draft { HasRowsOfFirst source.now entry draft.old }
    ensures { OnOk result (HasRowsOfFirst source.now (entry + 1) draft.new) }
{
    let Some((place, known)) = source.table.places.get_index(entry) else {
        return Ok(());
    };
    let Spot::Point(key, addr) = place else {
        return Ok(());
    };
    let node = frame_number_with_hint(source.numbers, draft.node, key);
    draft.node = node;
    if has_listed_outline(draft.outlines.as_slice(), node, known) {
        return Ok(());
    }
    let at = KnownPoint {
        key: *key,
        addr: *addr,
        node,
        known,
    };
    add_point_row(alloc, source, draft, &at)?;
    Ok(())
}

/// Returns true only if the point enters frames only by interrupts, and its outline (IE, CCPN,
/// saved lower contexts) is listed for its frame `node`. Then the point needs no row of its own.
#[inline(always)]
fn has_listed_outline(outlines: &[Option<Outline>], node: usize, known: &Marked<SmallKnown>) -> bool
    ensures { IsTrue result → HasListedOutline outlines.now node known.now }
{
    if !is_plain_mark(known.mark) {
        return false;
    }
    let Some(Some(other)) = outlines.get(node) else {
        return false;
    };
    let cell = &known.value;
    match cell.outline() {
        Some(outline) => *other == outline,
        None => false,
    }
}

/// Appends the row of the known point `at` to the draft: its frame, saved lower contexts, and
/// entered frames. If interrupts alone enter frames there, no instruction is decoded.
#[inline(never)]
fn add_point_row(
    alloc: Global,
    source: &Source,
    draft: &mut RowsDraft,
    at: &KnownPoint,
) -> Result<(), AllocError>
    requires source { HasFinishedTable source.now }
    requires at { IsTablePoint source.now at.now }
    ensures { OnOk result (AddsPointRow source.now draft.old draft.new at.now) }
{
    if is_plain_mark(at.known.mark) {
        let cell = &at.known.value;
        if let Some(outline) = cell.outline() {
            let mut into = Vec::new(alloc);
            append_handlers_if_enabled(&mut into, outline.ie, outline.ccpn, source.handlers)?;
            draft.rows.push(NeedRow {
                node: at.node,
                held: outline.held,
                into,
            })?;
            if at.node < draft.outlines.len() {
                draft.outlines[at.node] = Some(outline);
            }
            return Ok(());
        }
    }
    let row = point_row(alloc, source, &mut draft.state, at)?;
    draft.rows.push(row)?;
    Ok(())
}
