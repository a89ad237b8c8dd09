// K16 at each point of a certificate.
ghost use Rattle.std.specs.Prelude.{All, IfNone, IfSome};
ghost use Rattle.value_domain.specs.State.{AreInLattice};
ghost use Rattle.cfg_recover.specs.RulesHoldOrFail.{Accepts};
ghost use Rattle.value_cells.specs.Cells.{AreCells, CellsDoNotWrap, with_cells};
ghost use Rattle.value_cells.specs.Keeping.{CertKeepsCellBounds, PointKeepsCellBounds, IsFirstRule16Fault, IsFirstRule16NodeFault};

use crate::cells::Cells;
use crate::plans::with_cells;
use crate::rule_16::{CellsRule, keeps_rule_16};
use cfg_recover::KnownCodes;
use depth_cert::Key;
use elf_image::Image;
use packed_cert::{Cert, Node, PointWalk};
use tcd_plan::Plan;
use value_domain::Bounds;

/// Returns the first frame key and address at which a store may break a cell's bounds (rule K16),
/// or `None`. Cells are words of ram with bounds; the certificate is accepted under the plan with
/// cells.
#[inline(never)]
pub fn cells_fault(image: &Image, plan: &Plan, cells: &Cells, cert: &Cert) -> Option<(Key, u32)>
    requires cells { AreCells plan.now cells.now }
    requires accepted { Accepts image.now (with_cells plan.now cells.now) cert.now }
    ensures none { IfNone result
        (CertKeepsCellBounds image.now (with_cells plan.now cells.now) cells.now cert.now) }
    ensures some { let other = with_cells plan.now cells.now in
        IfSome result (λ f. IsFirstRule16Fault image.now other cells.now cert.now f.0 f.1) }
{
    let _areas = plan.areas;
    let other = with_cells(plan, cells);
    let bounds = Bounds::of(&other, cert.version());
    let rule = CellsRule {
        bounds: &bounds,
        image,
        plan: &other,
        cells: cells.list(),
    };
    let mut codes = KnownCodes::new();
    let mut walk = PointWalk::empty();
    for i in 0..cert.len() {
        let Some(node) = cert.get(i) else {
            unreachable!()
        };
        if let Some(addr) = first_cell_fault_in_node(&rule, &mut codes, &node, &mut walk) {
            return Some((node.key, addr));
        }
    }
    None
}

/// Returns the first address of a node's points at which a store may break a cell's bounds (rule
/// K16), or `None`. `codes` caches decoded instructions; `walk` is reused.
fn first_cell_fault_in_node<'a>(
    rule: &CellsRule,
    codes: &mut KnownCodes,
    node: &Node<'a>,
    walk: &mut PointWalk<'a>,
) -> Option<u32>
    requires values { All (λ p. AreInLattice rule.now.bounds.now p.state.regs) node.now.points }
    requires cells { CellsDoNotWrap rule.now.cells.now }
    ensures none { let r = rule.now in
        IfNone result (All
        (PointKeepsCellBounds r.bounds.now r.image.now r.plan.now r.cells.now) node.now.points) }
    ensures some { let r = rule.now in
        IfSome result
        (IsFirstRule16NodeFault r.bounds.now r.image.now r.plan.now r.cells.now node.now) }
{
    node.start_walk(walk);
    while let Some(addr) = walk.advance() {
        if !keeps_rule_16(rule, codes, addr, walk.state()) {
            return Some(addr);
        }
    }
    None
}
