// The graph of a certificate: where each of its points goes on.
ghost use Rattle.std.specs.Prelude.{IfOk, string_bytes};
ghost use Rattle.cfg_recover.specs.RulesHoldOrFail.{Accepts};
ghost use Rattle.tcd_report.specs.Graphs.{IsGraph};

use crate::graphs::graph_text::{append_node_lines, empty_drawing};
use crate::judged::Judged;
use cfg_recover::KnownCodes;
use elf_image::Image;
use packed_cert::{Cert, PointWalk};
use std::alloc::Global;
use tcd_base::NoMemory;
use tcd_plan::Plan;
use value_domain::Bounds;

pub(crate) mod addresses;
pub(crate) mod edges;
pub(crate) mod entries;
pub(crate) mod graph_text;
pub(crate) mod handlers;
pub(crate) mod lines;
pub(crate) mod successors;

/// Returns the control flow graph of an accepted certificate as text: a line for each edge, ordered
/// by frame and address. At one address jumps and calls come first, then returns of callees, system
/// call, misaligned access, interrupts, and `ret` or `rfe`.
pub fn graph(alloc: Global, image: &Image, plan: &Plan, cert: &Cert) -> Result<String, NoMemory>
    requires { Accepts image.now plan.now cert.now }
    ensures { IfOk result (λ text. IsGraph image.now plan.now cert.now (string_bytes text)) }
{
    let bounds = Bounds::of(plan, cert.version());
    let judged = Judged {
        bounds: &bounds,
        image,
        plan,
        cert,
    };
    let mut graph = empty_drawing(alloc);
    let mut codes = KnownCodes::new();
    let mut walk = PointWalk::empty();
    for i in 0..cert.len() {
        let Some(node) = cert.get(i) else {
            unreachable!()
        };
        append_node_lines(&mut graph, &judged, &mut codes, &node, &mut walk)?;
    }
    Ok(graph.text)
}
