// The length of the longest call chain that begins in each node.
ghost use Rattle.std.specs.Prelude.{◌≡◌, [], Contains, IfOk, map, unwrap_or};
ghost use Rattle.tcd_report.specs.Reports.Heights.{AreNodeHeights, HasHeightOfEachNode, IsGreatestHeight, IsGreatestHeightInList, IsHeightThroughTarget, IsHeightThroughCall, AreHeightsBounded, need_with_key};
ghost use Rattle.tcd_report.specs.Judging.{IsAcceptedWithLimits};
ghost use Rattle.tc_isa.specs.InBounds.{IsTargetInBounds};
ghost use Rattle.cfg_recover.specs.LocalRules.{targets_of};
ghost use Rattle.cfg_recover.specs.LocalFaults.{IsFaultless};
ghost use Rattle.depth_cert.specs.Points.{point_of};

use crate::judged::Judged;
use cfg_recover::{KnownCodes, entered_key, targets};
use depth_cert::{CALL, Key};
use packed_cert::{Cert, Node, PointWalk};
use std::alloc::Global;
use std::collections::HashMap;
use tc_isa::{Shape, Target};
use tcd_base::NoMemory;
use tcd_plan::Plan;
use value_domain::State;

/// Returns the height of each node: the length of the longest call chain that begins there. Nodes
/// are visited by ascending need, so callees before callers.
pub(crate) fn node_heights(alloc: Global, judged: &Judged) -> Result<HashMap<Key, u32>, NoMemory>
    requires { IsAcceptedWithLimits judged.now }
    ensures tells { let j = judged.now in
        IfOk result (λ m. AreNodeHeights j.image.now j.plan.now j.cert.now m) }
    ensures all { IfOk result (λ m. HasHeightOfEachNode judged.now.cert.now.nodes m) }
{
    let cert = judged.cert;
    // Reading a field gives the facts that hold for every certificate.
    let _version = cert.version();
    let mut order = needs_with_keys(alloc, cert)?;
    order.sort()?;
    let mut heights = HashMap::new(alloc);
    let mut codes = KnownCodes::new();
    let mut walk = PointWalk::empty();
    for (_, key) in &order {
        let Some(node) = cert.node(key) else {
            unreachable!()
        };
        let rows = height_of_node(judged, &heights, &mut codes, &node, &mut walk);
        heights.insert(*key, rows)?;
    }
    Ok(heights)
}

// Returns the height of a node: 0, or the greatest height of a function that it calls, plus 1.
// `heights` has those of callees, `codes` caches decoded instructions, and `walk` is scratch space.
fn height_of_node<'a>(
    judged: &Judged,
    heights: &HashMap<Key, u32>,
    codes: &mut KnownCodes,
    node: &Node<'a>,
    walk: &mut PointWalk<'a>,
) -> u32
    requires judged { IsAcceptedWithLimits judged.now }
    requires low { AreHeightsBounded heights.now }
    requires stands { Contains judged.now.cert.now.nodes node.now }
    ensures { let j = judged.now in
        IsGreatestHeightInList (IsHeightThroughCall j.image.now j.plan.now j.cert.now heights.now
        node.now.key)
        node.now.points result }
{
    let mut most = 0;
    node.start_walk(walk);
    while let Some(addr) = walk.advance() {
        most = height_at_point(judged, heights, codes, &node.key, addr, walk.state()).max(most);
    }
    most
}

// Returns the length of the longest call chain that begins at the point at `addr` with state `s`,
// or 0 without a call. `heights` has the heights of callees.
fn height_at_point(
    judged: &Judged,
    heights: &HashMap<Key, u32>,
    codes: &mut KnownCodes,
    key: &Key,
    addr: u32,
    s: &State,
) -> u32
    requires judged { IsAcceptedWithLimits judged.now }
    requires low { AreHeightsBounded heights.now }
    requires faultless { let j = judged.now in
        IsFaultless j.bounds.now j.image.now j.plan.now key.now addr s.now }
    ensures { let j = judged.now in
        IsGreatestHeight (IsHeightThroughCall j.image.now j.plan.now j.cert.now heights.now key.now
        (point_of addr s.now)) result }
{
    let Some(found) = codes.decode_cached(judged.image, judged.plan, addr) else {
        unreachable!()
    };
    match found.shape {
        Shape::Call { to } => height_of_call(judged.plan, heights, key, addr, s, to),
        _ => 0,
    }
}

// Returns each node's need, a number of CSAs, with its key. Sorted by these pairs, the nodes of an
// accepted certificate have callees before callers.
fn needs_with_keys(alloc: Global, cert: &Cert) -> Result<Vec<(u16, Key)>, NoMemory>
    ensures { IfOk result (λ v. v.items ≡ map need_with_key cert.now.nodes) }
{
    let mut ranks = Vec::new(alloc);
    for i in 0..cert.len() {
        let Some(node) = cert.get(i) else {
            unreachable!()
        };
        ranks.push((node.need, node.key))?;
    }
    Ok(ranks)
}

// Returns the length of the longest call chain that begins with a call, or 0 if no function that
// may be called has a height. Not inlined, so that a list of functions takes stack only here.
#[inline(never)]
fn height_of_call(
    plan: &Plan,
    heights: &HashMap<Key, u32>,
    key: &Key,
    addr: u32,
    s: &State,
    to: Target,
) -> u32
    requires low { AreHeightsBounded heights.now }
    requires target { IsTargetInBounds to }
    ensures { IsGreatestHeightInList (IsHeightThroughTarget heights.now key.now)
        (unwrap_or (targets_of plan.now s.now addr to) []) result }
{
    let functions = targets(plan, s, addr, to);
    let mut most = 0;
    for target in functions.as_slice() {
        most = height_of_callee(heights, key, *target).max(most);
    }
    most
}

// Returns the height of the function at `target` that a frame with this key calls, plus 1, or 0 if
// `heights` has none.
fn height_of_callee(heights: &HashMap<Key, u32>, key: &Key, target: u32) -> u32
    requires { AreHeightsBounded heights.now }
    ensures { IsGreatestHeight (IsHeightThroughTarget heights.now key.now target) result }
{
    match heights.get(&entered_key(key, CALL, target)) {
        Some(height) => *height + 1,
        None => 0,
    }
}
