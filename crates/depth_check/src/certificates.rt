// The check of a certificate.
ghost use Rattle.std.specs.Prelude.{◌≡◌, IsNone, IfSome, Some};
ghost use Rattle.depth_cert.specs.Nodes.{find_node};
ghost use Rattle.cfg_recover.specs.RulesHoldOrFail.{StartRuleHolds};
ghost use Rattle.depth_check.specs.CheckAnswers.{IsCheckAnswer, IfAnswerIsYes};
ghost use Rattle.tc_machine.specs.Safe.{Safe};
ghost use Rattle.cfg_recover.specs.Entries as entries;

use crate::Verdict;
use crate::node_covers::has_covering_point;
use crate::verdicts::check_nodes;
use cfg_recover::{start_key, start_state};
use elf_image::Image;
use packed_cert::{Cert, Node};
use tcd_plan::Plan;

/// Whether the rules accept a certificate for an image under a plan. The answer is yes, with the
/// need of the start in areas, or the first rule that fails, with its node and its address. It
/// allocates nothing.
///
/// If the answer is yes, every run of the image under the plan is safe with that need.
pub fn check(image: &Image, plan: &Plan, cert: &Cert) -> Verdict
    ensures judges { IsCheckAnswer image.now plan.now cert.now result }
    ensures safe { IfAnswerIsYes result (Safe image.now plan.now) }
{
    let _areas = plan.areas;
    let _version = cert.version();
    check_nodes(image, plan, cert)
}

/// Returns the start's node of the certificate if K1 holds: its point at the image's entry covers
/// the start state. Otherwise returns `None`.
#[inline(never)]
pub(crate) fn start_node<'a>(image: &Image, plan: &Plan, cert: &'a Cert) -> Option<Node<'a>>
    ensures none { IsNone result → StartRuleHolds image.now plan.now cert.now → ⊥ }
    ensures holds { IfSome result (λ n. StartRuleHolds image.now plan.now cert.now) }
    ensures node { IfSome result
        (λ n. find_node (entries.start_key image.now plan.now) cert.now.nodes ≡ Some n) }
{
    let _sp = plan.sp;
    let node = cert.node(&start_key(image, plan))?;
    if has_covering_point(&node, image.entry, &start_state(plan)) {
        Some(node)
    } else {
        None
    }
}
