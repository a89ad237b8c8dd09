// The report of a certificate: the needs of its nodes, and the longest call chains.
ghost use Rattle.std.specs.Prelude.{IfOk, string_bytes};
ghost use Rattle.cfg_recover.specs.RulesHoldOrFail.{Accepts};
ghost use Rattle.tcd_report.specs.Reports.{IsReport};

use crate::judged::Judged;
use crate::reports::heights::node_heights;
use crate::reports::longest_by_priority::{longest_calls_below, longest_calls_by_priority};
use crate::reports::report_text::{certified_need, longest_calls_value, nodes_value, report_value};
use elf_image::Image;
use packed_cert::Cert;
use std::alloc::Global;
use tcd_base::NoMemory;
use tcd_plan::Plan;
use tcd_text::append_str;
use value_domain::Bounds;

pub(crate) mod heights;
pub(crate) mod longest_by_priority;
pub(crate) mod report_text;

/// Returns the report of an accepted certificate: one compact JSON object with its keys in byte
/// order, and a line feed. It has the CSAs, the reserve, the longest call chain of each priority,
/// the certified need, and the nodes with needs and numbers of points.
pub fn report(alloc: Global, image: &Image, plan: &Plan, cert: &Cert) -> Result<String, NoMemory>
    requires { Accepts image.now plan.now cert.now }
    ensures { IfOk result (λ text. IsReport image.now plan.now cert.now (string_bytes text)) }
{
    let bounds = Bounds::of(plan, cert.version());
    let judged = Judged {
        bounds: &bounds,
        image,
        plan,
        cert,
    };
    let heights = node_heights(alloc, &judged)?;
    let known = longest_calls_by_priority(alloc, cert, &heights)?;
    let rows = longest_calls_below(alloc, &known, 256)?;
    let need = certified_need(image, plan, cert);
    let calls = longest_calls_value(alloc, &rows)?;
    let nodes = nodes_value(alloc, cert)?;
    let value = report_value(alloc, plan, need, calls, nodes)?;
    let mut text = value.to_string(alloc)?;
    append_str(&mut text, "\n")?;
    Ok(text)
}
