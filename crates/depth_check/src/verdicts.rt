// The answer of a check.
ghost use Rattle.std.specs.Prelude.{Some};
ghost use Rattle.depth_check.specs.CheckAnswers.{IsCheckAnswer};

use crate::certificates::start_node;
use crate::fast_paths::NO_REGISTERS;
use crate::last_interrupts::LastInterrupts;
use crate::nodes::{NodeScratch, first_node_fault};
use crate::points::{PointScratch, blank_change};
use crate::rules::NO_START;
use cfg_recover::{KnownCodes, OperationCache, start_key};
use depth_cert::Key;
use elf_image::Image;
use packed_cert::{Cert, PointWalk};
use tcd_plan::Plan;
use value_domain::Bounds;

/// The certified number of areas, or the first rule that fails, with its node's key and its
/// address.
#[derive(Clone, Copy, Debug, PartialEq, Eq)]
pub enum Verdict {
    Yes(u32),
    No { rule: u8, key: Key, addr: u32 },
}

/// Checks a certificate node by node: returns yes with the start's need, or no with the first rule
/// that fails, its key and address.
pub(crate) fn check_nodes(image: &Image, plan: &Plan, cert: &Cert) -> Verdict
    ensures { IsCheckAnswer image.now plan.now cert.now result }
{
    let b = Bounds::of(plan, cert.version());
    let Some(start) = start_node(image, plan, cert) else {
        return Verdict::No {
            rule: NO_START,
            key: start_key(image, plan),
            addr: image.entry,
        };
    };
    let mut scratch = NodeScratch {
        point: PointScratch {
            change: blank_change(),
            cache: OperationCache::empty(),
            codes: KnownCodes::new(),
            registers: NO_REGISTERS,
        },
        interrupts: LastInterrupts::empty(),
        walk: PointWalk::empty(),
    };
    for i in 0..cert.len() {
        if let Some(node) = cert.get(i) {
            if let Some(fault) = first_node_fault(&b, image, plan, cert, &node, &mut scratch) {
                return Verdict::No {
                    rule: fault.rule,
                    key: node.key,
                    addr: fault.addr,
                };
            }
        }
    }
    Verdict::Yes(u32::from(start.need))
}
