// The least needs of the frames of a closed table.
ghost use Rattle.std.specs.Prelude.{◌≡◌, ◌≤◌, ◌-◌, IfOk};
ghost use Rattle.depth_maker.specs.Rows.{HasFinishedTable, AreRowsOfTable};
ghost use Rattle.depth_maker.specs.Needs.{IsLeastNeedsOrRecursion, StartNeedsTooManyAreas};
ghost use Rattle.depth_maker.specs.Answers.{MakeErrNamesRefusal};
ghost use Rattle.depth_maker.specs.Recursing.{IsFirstRecursion};

use crate::answering::MakeErr;
use crate::recursion::first_recursion;
use crate::rows::{Source, need_rows};
use cfg_recover::start_key;
use depth_cert::Key;
use frame_places::{
    NEEDS_RULE, NeedRow, frame_edges, get_or_zero, least_needs, needs_in_few_passes,
    topological_ranks,
};
use std::alloc::{AllocError, Global};
use tcd_plan::Plan;

/// Returns the greatest need that is allowed, in areas: the plan's areas without the reserve, at
/// most 4,096.
pub(crate) fn need_limit(plan: &Plan) -> u32
    ensures areas { result ≡ plan.now.areas - plan.now.reserve }
    ensures few { result ≤ 4096 }
{
    plan.areas - plan.reserve
}

/// Returns each frame's least need of areas, by frame number. If the start needs more than the
/// areas without the reserve, the error is the first recursive point, or `None` without recursion.
/// Rows are sorted by priority or rank, to take few passes.
pub(crate) fn least_frame_needs(
    alloc: Global,
    source: &Source,
) -> Result<Result<Vec<u32>, Option<(Key, u32)>>, AllocError>
    requires { HasFinishedTable source.now }
    ensures { IfOk result (IsLeastNeedsOrRecursion source.now) }
{
    let mut rows = need_rows(alloc, source)?;
    let frames = source.table.frames.as_slice();
    rows.sort_by_key(|row| match frames.get(row.node) {
        Some(key) => key.prio,
        None => 0,
    })?;
    let cap = need_limit(source.ground.plan);
    let soon = needs_in_few_passes(alloc, frames.len(), rows.as_slice(), cap)?;
    if let Some(found) = soon {
        return Ok(Ok(found));
    }
    let edges = frame_edges(alloc, rows.as_slice())?;
    let ranks = topological_ranks(alloc, frames.len(), edges.as_slice())?;
    rows.sort_by_key(|row| get_or_zero(ranks.as_slice(), row.node))?;
    let recurs = first_recursion(alloc, source, edges.as_slice(), ranks.as_slice(), frames)?;
    least_needs_from_rows(alloc, source, rows.as_slice(), recurs, frames)
}

/// Returns the refusal by K14, the rule on needs, if the start needs too many areas: at `place`,
/// the first recursion, or at the start's entry if there is none.
pub(crate) fn need_refusal(source: &Source, place: Option<(Key, u32)>) -> MakeErr
    requires source { HasFinishedTable source.now }
    requires none { StartNeedsTooManyAreas source.now }
    requires place { IsFirstRecursion source.now place }
    ensures { MakeErrNamesRefusal source.now.ground.now result }
{
    match place {
        Some((key, addr)) => MakeErr::Refused {
            rule: NEEDS_RULE,
            key,
            addr,
        },
        None => {
            let key = start_key(source.ground.image, source.ground.plan);
            MakeErr::Refused {
                rule: NEEDS_RULE,
                key,
                addr: key.entry,
            }
        }
    }
}

/// Returns each frame's least need of areas, by frame number, from the rows of all points. The
/// error is `recurs`, the first recursive point, or `None` if needs exceed the plan's areas.
fn least_needs_from_rows(
    alloc: Global,
    source: &Source,
    rows: &[NeedRow],
    recurs: Option<(Key, u32)>,
    frames: &[Key],
) -> Result<Result<Vec<u32>, Option<(Key, u32)>>, AllocError>
    requires source { HasFinishedTable source.now }
    requires rows { AreRowsOfTable source.now.ground.now source.now.table.now rows.now }
    requires recurs { IsFirstRecursion source.now recurs }
    requires frames { frames.now ≡ source.now.table.now.frames.items }
    ensures { IfOk result (IsLeastNeedsOrRecursion source.now) }
{
    if let Some(place) = recurs {
        return Ok(Err(Some(place)));
    }
    let cap = need_limit(source.ground.plan);
    let needs = least_needs(alloc, frames.len(), rows, cap)?;
    match needs {
        Some(found) => Ok(Ok(found)),
        None => Ok(Err(recurs)),
    }
}
