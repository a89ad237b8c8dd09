// The longest call chain of each priority.
ghost use Rattle.std.specs.Prelude.{◌≡◌, ◌++◌, OnOk, IfOk, nat_eq};
ghost use Rattle.std.specs.HashMap.{get};
ghost use Rattle.std.specs.Option.{option_copied};
ghost use Rattle.tcd_report.specs.Reports.Heights.{HasHeightOfEachNode};
ghost use Rattle.tcd_report.specs.Reports.Longest.{AreLongestCallsByPriority, longest_so_far, longest_calls_of, longest_calls_below};

use depth_cert::Key;
use packed_cert::Cert;
use std::alloc::Global;
use std::collections::HashMap;
use tcd_base::NoMemory;

/// A priority, and the length of its longest call chain.
#[derive(Clone, Copy)]
pub(crate) struct LongestCalls {
    pub(crate) longest: u32,
    pub(crate) prio: u16,
}

/// Returns the length of the longest call chain of each interrupt priority that has nodes.
/// `heights` has for each node the length of the longest chain from there.
pub(crate) fn longest_calls_by_priority(
    alloc: Global,
    cert: &Cert,
    heights: &HashMap<Key, u32>,
) -> Result<HashMap<u16, u32>, NoMemory>
    requires { HasHeightOfEachNode cert.now.nodes heights.now }
    ensures { IfOk result (λ rows. AreLongestCallsByPriority heights.now cert.now.nodes rows) }
{
    let mut rows = HashMap::new(alloc);
    for i in 0..cert.len() {
        let Some(node) = cert.get(i) else {
            unreachable!()
        };
        let Some(height) = heights.get(&node.key) else {
            unreachable!()
        };
        let prio = u16::from(node.key.prio);
        let most = longest_so_far(rows.get(&prio), *height);
        rows.insert(prio, most)?;
    }
    Ok(rows)
}

/// Returns the known longest call chains of the priorities below `count`, by ascending priority.
pub(crate) fn longest_calls_below(
    alloc: Global,
    known: &HashMap<u16, u32>,
    count: u16,
) -> Result<Vec<LongestCalls>, NoMemory>
    ensures { IfOk result (λ v. v.items ≡ longest_calls_below (get nat_eq known.now) count) }
{
    let mut rows = Vec::new(alloc);
    for prio in 0..count {
        push_longest(&mut rows, prio, known.get(&prio))?;
    }
    Ok(rows)
}

// Returns the greater of a node's height and `known`, the length of the longest call chain so far,
// if there is one.
fn longest_so_far(known: Option<&u32>, height: u32) -> u32
    ensures { result ≡ longest_so_far (option_copied known.entry) height }
{
    match known {
        None => height,
        Some(most) => height.max(*most),
    }
}

// Appends a priority with `row`, the length of its longest call chain, to the rows of the report.
// Appends nothing if `row` is None, for a priority without nodes.
fn push_longest(rows: &mut Vec<LongestCalls>, prio: u16, row: Option<&u32>) -> Result<(), NoMemory>
    ensures { OnOk result
        (rows.new.items ≡ rows.old.items ++ longest_calls_of prio (option_copied row.entry)) }
{
    if let Some(longest) = row {
        rows.push(LongestCalls {
            longest: *longest,
            prio,
        })?;
    }
    Ok(())
}
