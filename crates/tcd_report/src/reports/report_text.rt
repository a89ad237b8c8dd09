// The report of a certificate as text.
ghost use Rattle.std.specs.Prelude.{◌≡◌, IfOk};
ghost use Rattle.serde_json.specs.View.{view};
ghost use Rattle.cfg_recover.specs.RulesHoldOrFail.{certified_need};
ghost use Rattle.tcd_report.specs.Reports.{reported_node, nodes_data, all_longest_calls_data, report_object_data};

use crate::reports::longest_by_priority::LongestCalls;
use crate::texts::append_frame_name;
use cfg_recover::start_key;
use elf_image::Image;
use packed_cert::{Cert, Node};
use serde_json::{Map, Value, json, put};
use std::alloc::Global;
use tcd_base::NoMemory;
use tcd_plan::Plan;

/// Returns how many CSAs the certificate proves enough, for the report: the need of the start node,
/// or 0 if there is none.
pub(crate) fn certified_need(image: &Image, plan: &Plan, cert: &Cert) -> u32
    ensures { result ≡ certified_need image.now plan.now cert.now }
{
    match cert.node(&start_key(image, plan)) {
        Some(node) => u32::from(node.need),
        None => 0,
    }
}

// Returns the whole report as a JSON object: the CSAs, the longest call chains, the certified need,
// the nodes, and the reserve.
pub(crate) fn report_value(
    alloc: Global,
    plan: &Plan,
    certified: u32,
    calls: Value,
    nodes: Value,
) -> Result<Value, NoMemory>
    ensures { IfOk result (λ v. view v
        ≡ report_object_data plan.now.areas (view calls) certified (view nodes) plan.now.reserve) }
{
    let mut members = Map::new(alloc);
    put(&mut members, alloc, "areas", Value::from(plan.areas))?;
    put(&mut members, alloc, "calls", calls)?;
    put(&mut members, alloc, "certified", Value::from(certified))?;
    put(&mut members, alloc, "nodes", nodes)?;
    put(&mut members, alloc, "reserve", Value::from(plan.reserve))?;
    Ok(Value::Object(members))
}

/// Returns the array of the nodes in the report's JSON, in the order of their frames.
pub(crate) fn nodes_value(alloc: Global, cert: &Cert) -> Result<Value, NoMemory>
    ensures { IfOk result (λ v. view v ≡ nodes_data cert.now.nodes) }
{
    let mut values = Vec::new(alloc);
    for i in 0..cert.len() {
        let Some(node) = cert.get(i) else {
            unreachable!()
        };
        let value = node_value(alloc, &node)?;
        values.push(value)?;
    }
    Ok(Value::Array(values))
}

/// Returns the array of the longest call chains in the report's JSON, one object for each priority.
pub(crate) fn longest_calls_value(alloc: Global, rows: &[LongestCalls]) -> Result<Value, NoMemory>
    ensures { IfOk result (λ v. view v ≡ all_longest_calls_data rows.now) }
{
    let mut values = Vec::new(alloc);
    for row in rows {
        let value = json!(in alloc; {"longest": row.longest, "prio": row.prio})?;
        values.push(value)?;
    }
    Ok(Value::Array(values))
}

/// Returns a node for the report's JSON: an object with its key as text, its need, and the number
/// of its points.
fn node_value(alloc: Global, node: &Node<'_>) -> Result<Value, NoMemory>
    ensures { IfOk result (λ v. view v ≡ reported_node node.now) }
{
    let mut key = String::new(alloc);
    append_frame_name(&mut key, &node.key)?;
    let value = json!(in alloc; {"key": key, "need": node.need, "points": node.len()})?;
    Ok(value)
}
