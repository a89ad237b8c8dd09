// K17 at each point of a view's certificate.
ghost use Rattle.std.specs.Prelude.{All, IfNone, IfSome};
ghost use Rattle.value_domain.specs.State.{AreInLattice};
ghost use Rattle.cfg_recover.specs.RulesHoldOrFail.{Accepts};
ghost use Rattle.task_chains.specs.Rule17.{KeepsRule17, IsRule17Fault, KeepsRule17InNode, IsRule17NodeFault};

use crate::Tasks;
use crate::rule_17::{TasksRule, keeps_rule_17};
use cfg_recover::KnownCodes;
use depth_cert::Key;
use elf_image::Image;
use packed_cert::{Cert, Node, PointWalk};
use tcd_plan::Plan;
use value_domain::Bounds;

/// Returns the frame and address of the first point of a task's certificate that breaks K17, or
/// None. K17 forbids other frames in the switch routine, loads of its bytes or of save areas,
/// reading PCXI, FCX or LCX, and BISR outside interrupts.
#[inline(never)]
pub fn task_fault(view: &Image, plan: &Plan, tasks: &Tasks, cert: &Cert) -> Option<(Key, u32)>
    requires { Accepts view.now plan.now cert.now }
    ensures none { IfNone result (KeepsRule17 view.now plan.now tasks.now cert.now) }
    ensures some { IfSome result (λ f. IsRule17Fault view.now plan.now tasks.now cert.now f.0 f.1) }
{
    let bounds = Bounds::of(plan, cert.version());
    let rule = TasksRule {
        bounds: &bounds,
        view,
        plan,
        tasks,
    };
    let mut codes = KnownCodes::new();
    let mut walk = PointWalk::empty();
    for i in 0..cert.len() {
        let Some(node) = cert.get(i) else {
            unreachable!()
        };
        if let Some(addr) = first_fault_in_node(&rule, &mut codes, &node, &mut walk) {
            return Some((node.key, addr));
        }
    }
    None
}

/// Returns the address of the first point of a certificate's node that breaks K17 (what a task must
/// leave alone), or None. `codes` caches decoded instructions; `walk` is a reused buffer.
fn first_fault_in_node<'a>(
    rule: &TasksRule,
    codes: &mut KnownCodes,
    node: &Node<'a>,
    walk: &mut PointWalk<'a>,
) -> Option<u32>
    requires { All (λ p. AreInLattice rule.now.bounds.now p.state.regs) node.now.points }
    ensures none { let r = rule.now in
        IfNone result (KeepsRule17InNode r.bounds.now r.view.now r.plan.now r.tasks.now node.now) }
    ensures some { let r = rule.now in
        IfSome result (IsRule17NodeFault r.bounds.now r.view.now r.plan.now r.tasks.now node.now) }
{
    node.start_walk(walk);
    while let Some(addr) = walk.advance() {
        if !keeps_rule_17(rule, codes, &node.key, addr, walk.state()) {
            return Some(addr);
        }
    }
    None
}
