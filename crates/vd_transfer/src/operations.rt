// The value of an operation on two values, or on two operands.
ghost use Rattle.std.specs.Prelude.{◌≡◌, ◌≤◌, ◌<◌, ◌+◌, length, ◌++◌, ◌∷◌, map, IsNone};
ghost use Rattle.value_domain.specs.Values.{IsInLattice, cover, members, words_of};
ghost use Rattle.tc_isa.specs.Arithmetic.{alu_of};
ghost use Rattle.vd_transfer.specs.Operations.{possible_results, results_by_extents, results_of_pairs, HasMembers, operation_value, is_comparison};
ghost use Rattle.vd_transfer.specs.Registers.{arg_of};
ghost use Rattle.vd_transfer.specs.EffectsOnStates.{operation_in_state};
ghost use Rattle.value_domain.specs.State.{AreInLattice};
ghost use Rattle.tc_isa.specs.InBounds.{IsArgInBounds};

use crate::operands::{Operation, arg_in_state, arg_word, build_arg, write_constant};
use crate::strided_interval::result_interval;
use tc_isa::{Op, alu};
use tcd_plan::Plan;
use value_domain::{
    Bounds, State, Val, copy_to, extent_of, extent_with_words, is_set, join_word, write_cover,
    write_cover_words, write_span,
};

/// Overwrites `out` with the abstract value of an operation on `v` and `w`: the cover of all
/// results for two Sets, else of a superset.
pub fn write_operation_value(b: &Bounds, op: Op, v: &Val, w: &Val, out: &mut Val)
    requires left { IsInLattice b.now v.now }
    requires right { IsInLattice b.now w.now }
    ensures cover { out.new ≡ cover b.now (possible_results op v.now w.now) }
    ensures value { IsInLattice b.now out.new }
{
    match v {
        Val::Set(xs) => match w {
            Val::Set(ys) => write_results_of_pairs(b, op, xs.as_slice(), ys.as_slice(), out),
            Val::Span { .. } => write_results_by_extents(b, op, v, w, out),
        },
        Val::Span { .. } => write_results_by_extents(b, op, v, w, out),
    }
}

/// Overwrites `out` with the abstract value of the operation `of` on operands in the state `s`.
/// Single words are computed directly; values that the state has aren't copied.
pub(crate) fn evaluate_operation(b: &Bounds, plan: &Plan, s: &State, of: Operation, out: &mut Val)
    requires operands { IsArgInBounds of.x × IsArgInBounds of.y }
    requires values { AreInLattice b.now s.now.regs }
    ensures of { out.new ≡ operation_in_state b.now plan.now s.now of.op of.x of.y }
    ensures value { IsInLattice b.now out.new }
{
    let _most_words = b.most_words();
    match arg_word(b, plan, s, of.x) {
        Some(x) => match arg_word(b, plan, s, of.y) {
            Some(y) => write_constant(b, alu(of.op, x, y), out),
            None => evaluate_on_state_values(b, plan, s, of, out),
        },
        None => evaluate_on_state_values(b, plan, s, of, out),
    }
}

/// Returns true if an operation is a comparison, whose only results are 1 and 0.
#[tactic(auto, unfolding(crate::specs::Operations::is_comparison))]
pub(crate) fn is_comparison(op: Op) -> bool
    ensures { result ≡ is_comparison op }
{
    match op {
        Op::Eq | Op::Ne | Op::Lt | Op::LtU | Op::Ge | Op::GeU => true,
        _ => false,
    }
}

/// Overwrites `out` with the abstract value of an operation on two Sets: the cover of the results
/// of all pairs of words.
fn write_results_of_pairs(b: &Bounds, op: Op, xs: &[u32], ys: &[u32], out: &mut Val)
    requires left { 1 ≤ length xs.now }
    requires right { 1 ≤ length ys.now }
    requires few { length ys.now ≤ 128 }
    ensures cover { out.new ≡ cover b.now (results_of_pairs op xs.now ys.now) }
    ensures value { IsInLattice b.now out.new }
{
    let _most_words = b.most_words();
    if xs.len() == 1 && ys.len() == 1 {
        write_constant(b, alu(op, xs[0], ys[0]), out);
        return;
    }
    if ys.len() <= 64 / xs.len() {
        write_results_of_few_pairs(b, op, xs, ys, out);
        return;
    }
    write_results_of_many_pairs(b, op, xs, ys, out);
}

/// Overwrites `out` with an operation's value if an operand is a Span: `w` for a move, 0 and 1 for
/// comparisons, else an interval's cover.
fn write_results_by_extents(b: &Bounds, op: Op, v: &Val, w: &Val, out: &mut Val)
    requires left { IsInLattice b.now v.now }
    requires right { IsInLattice b.now w.now }
    ensures cover { out.new ≡ cover b.now (results_by_extents op v.now w.now) }
    ensures value { IsInLattice b.now out.new }
{
    let _most_words = b.most_words();
    if is_comparison(op) {
        write_cover_words(b, &[0, 1], out);
        return;
    }
    match op {
        Op::Second => copy_to(w, out),
        _ => {
            let run = result_interval(op, &extent_of(v), &extent_of(w), w);
            write_cover(b, run.first, run.last, run.step, out);
        }
    }
}

/// Overwrites `out` with the abstract value of an operation on two small Sets: the results of all
/// pairs of words are joined one by one.
fn write_results_of_few_pairs(b: &Bounds, op: Op, xs: &[u32], ys: &[u32], out: &mut Val)
    requires left { 1 ≤ length xs.now }
    requires right { 1 ≤ length ys.now }
    ensures cover { out.new ≡ cover b.now (results_of_pairs op xs.now ys.now) }
    ensures value { IsInLattice b.now out.new }
{
    let _most_words = b.most_words();
    write_constant(b, alu(op, xs[0], ys[0]), out);
    for x in xs {
        join_results_of_word(b, out, op, *x, ys);
    }
}

/// Overwrites `out` with the abstract value of an operation on two large Sets. Results are joined
/// one by one while `out` is a Set; of later results only the extent is joined.
#[inline(never)]
fn write_results_of_many_pairs(b: &Bounds, op: Op, xs: &[u32], ys: &[u32], out: &mut Val)
    requires left { 1 ≤ length xs.now }
    requires right { 1 ≤ length ys.now }
    requires few { length ys.now ≤ 128 }
    ensures cover { out.new ≡ cover b.now (results_of_pairs op xs.now ys.now) }
    ensures value { IsInLattice b.now out.new }
{
    let _most_words = b.most_words();
    let first = alu(op, xs[0], ys[0]);
    let mut met = [first; 512];
    let mut eights = [first; 2048];
    let mut room = [0u32; 128];
    write_constant(b, first, out);
    let mut i = 0;
    while i < xs.len() && is_set(out) {
        let row = &mut room[..ys.len()];
        fill_result_row(op, xs[i], ys, row);
        join_result_row(b, out, &mut met, &mut eights, row);
        i += 1;
    }
    if i < xs.len() {
        join_results_into_span(b, out, op, &xs[i..], ys, &mut room[..ys.len()]);
    }
}

/// Joins the results of an operation on `x` with each word of `ys` into an abstract value.
fn join_results_of_word(b: &Bounds, v: &mut Val, op: Op, x: u32, ys: &[u32])
    requires { IsInLattice b.now v.old }
    ensures cover { v.new ≡ cover b.now (members v.old ++ map (alu_of op x) ys.now) }
    ensures value { IsInLattice b.now v.new }
{
    for y in ys {
        join_word(b, v, alu(op, x, *y));
    }
}

/// Fills `row` with the results of an operation on `x` and each word of `ys`. Each operation has a
/// loop of its own.
fn fill_result_row(op: Op, x: u32, ys: &[u32], row: &mut [u32])
    requires { length row.old ≡ length ys.now }
    ensures { row.new ≡ map (alu_of op x) ys.now }
{
    match op {
        Op::Second => fill_result_row_inlined(Op::Second, x, ys, row),
        Op::Add => fill_result_row_inlined(Op::Add, x, ys, row),
        Op::Sub => fill_result_row_inlined(Op::Sub, x, ys, row),
        Op::And => fill_result_row_inlined(Op::And, x, ys, row),
        Op::Nand => fill_result_row_inlined(Op::Nand, x, ys, row),
        Op::Or => fill_result_row_inlined(Op::Or, x, ys, row),
        Op::Nor => fill_result_row_inlined(Op::Nor, x, ys, row),
        Op::Xor => fill_result_row_inlined(Op::Xor, x, ys, row),
        Op::Xnor => fill_result_row_inlined(Op::Xnor, x, ys, row),
        Op::Andn => fill_result_row_inlined(Op::Andn, x, ys, row),
        Op::Orn => fill_result_row_inlined(Op::Orn, x, ys, row),
        Op::Eq => fill_result_row_inlined(Op::Eq, x, ys, row),
        Op::Ne => fill_result_row_inlined(Op::Ne, x, ys, row),
        Op::Lt => fill_result_row_inlined(Op::Lt, x, ys, row),
        Op::LtU => fill_result_row_inlined(Op::LtU, x, ys, row),
        Op::Ge => fill_result_row_inlined(Op::Ge, x, ys, row),
        Op::GeU => fill_result_row_inlined(Op::GeU, x, ys, row),
        Op::Sh => fill_result_row_inlined(Op::Sh, x, ys, row),
        Op::Sha => fill_result_row_inlined(Op::Sha, x, ys, row),
    }
}

/// Joins the results `words` of an operation into `v`. Words found in a table of recent results are
/// skipped: eight in a row in `eights`, single ones in `met`.
fn join_result_row(
    b: &Bounds,
    v: &mut Val,
    met: &mut [u32; 512],
    eights: &mut [u32; 2048],
    words: &[u32],
)
    requires value { IsInLattice b.now v.old }
    requires met { HasMembers v.old met.old }
    requires eights { HasMembers v.old eights.old }
    ensures cover { v.new ≡ cover b.now (members v.old ++ words.now) }
    ensures value { IsInLattice b.now v.new }
    ensures met { HasMembers v.new met.new }
    ensures eights { HasMembers v.new eights.new }
{
    for e in 0..words.len() / 8 {
        let at = 8 * e;
        let k = recent_result_slot(words[at].wrapping_mul(2).wrapping_add(words[at + 7])) / 2 * 8;
        let mut missed = 0;
        for j in 0..8 {
            missed |= eights[k + j] ^ words[at + j];
        }
        if missed != 0 {
            join_eight_results(b, v, met, eights, k, &words[at..at + 8]);
        }
    }
    let mut i = words.len() / 8 * 8;
    while i < words.len() {
        join_result(b, v, met, words[i]);
        i += 1;
    }
}

/// Joins the results of an operation on all pairs of words into the Span `v`, by the extent of all
/// results. `row` is scratch space.
fn join_results_into_span(b: &Bounds, v: &mut Val, op: Op, xs: &[u32], ys: &[u32], row: &mut [u32])
    requires span { IsNone (words_of v.old) }
    requires value { IsInLattice b.now v.old }
    requires room { length row.old ≡ length ys.now }
    ensures cover { v.new ≡ cover b.now (members v.old ++ results_of_pairs op xs.now ys.now) }
    ensures value { IsInLattice b.now v.new }
{
    let _most_words = b.most_words();
    let mut e = extent_of(v);
    for x in xs {
        fill_result_row(op, *x, ys, row);
        e = extent_with_words(&e, row);
    }
    write_span(b, e.least, e.greatest, e.step, v);
}

/// Fills `row` with the results of an operation on `x` and each of `ys`, inlined once per
/// operation.
#[inline(always)]
fn fill_result_row_inlined(op: Op, x: u32, ys: &[u32], row: &mut [u32])
    requires { length row.old ≡ length ys.now }
    ensures { row.new ≡ map (alu_of op x) ys.now }
{
    for (i, y) in ys.iter().enumerate() {
        row[i] = alu(op, x, *y);
    }
}

/// Returns the slot, below 512, of an operation's result in the table of recent results: a hash of
/// the word.
fn recent_result_slot(z: u32) -> usize
    ensures { result < 512 }
{
    (z.wrapping_mul(0x9683_8B77) >> 23) as usize
}

/// Joins eight results of an operation into an abstract value and into both tables of recent
/// results: `met`, and `eights` from `k` on. Never inlined, so that callers need no stack.
#[inline(never)]
fn join_eight_results(
    b: &Bounds,
    v: &mut Val,
    met: &mut [u32; 512],
    eights: &mut [u32; 2048],
    k: usize,
    words: &[u32],
)
    requires value { IsInLattice b.now v.old }
    requires met { HasMembers v.old met.old }
    requires eights { HasMembers v.old eights.old }
    requires place { k + 8 ≤ 2048 }
    requires eight { length words.now ≡ 8 }
    ensures cover { v.new ≡ cover b.now (members v.old ++ words.now) }
    ensures value { IsInLattice b.now v.new }
    ensures met { HasMembers v.new met.new }
    ensures eights { HasMembers v.new eights.new }
{
    for j in 0..8 {
        join_result(b, v, met, words[j]);
        eights[k + j] = words[j];
    }
}

/// Joins a result `z` of an operation into an abstract value and into `met`, the table of recent
/// results, unless `met` has `z` already.
#[inline(always)]
fn join_result(b: &Bounds, v: &mut Val, met: &mut [u32; 512], z: u32)
    requires value { IsInLattice b.now v.old }
    requires met { HasMembers v.old met.old }
    ensures cover { v.new ≡ cover b.now (z ∷ members v.old) }
    ensures value { IsInLattice b.now v.new }
    ensures met { HasMembers v.new met.new }
{
    let k = recent_result_slot(z);
    if met[k] == z {
        return;
    }
    join_word(b, v, z);
    met[k] = z;
}

/// Evaluates an operation as `evaluate_operation` does, from its operands' abstract values. Those
/// in the state are borrowed; that of a constant or of a register without a slot is built first.
fn evaluate_on_state_values(b: &Bounds, plan: &Plan, s: &State, of: Operation, out: &mut Val)
    requires operands { IsArgInBounds of.x × IsArgInBounds of.y }
    requires values { AreInLattice b.now s.now.regs }
    ensures of { out.new ≡ operation_in_state b.now plan.now s.now of.op of.x of.y }
    ensures value { IsInLattice b.now out.new }
{
    match arg_in_state(b, plan, s, of.x) {
        Some(v) => match arg_in_state(b, plan, s, of.y) {
            Some(w) => write_operation_value(b, of.op, v, w, out),
            None => evaluate_built_right(b, plan, s, of, v, out),
        },
        None => evaluate_built_both(b, plan, s, of, out),
    }
}

/// Evaluates an operation as `evaluate_operation` does, on the left operand's value `v` and the
/// right operand's value, which is built first.
#[inline(never)]
fn evaluate_built_right(b: &Bounds, plan: &Plan, s: &State, of: Operation, v: &Val, out: &mut Val)
    requires operand { IsArgInBounds of.y }
    requires values { AreInLattice b.now s.now.regs }
    requires left { IsInLattice b.now v.now }
    ensures of { out.new ≡ operation_value b.now of.op v.now (arg_of plan.now s.now of.y) }
    ensures value { IsInLattice b.now out.new }
{
    write_operation_value(b, of.op, v, &build_arg(b, plan, s, of.y), out);
}

/// Evaluates an operation as `evaluate_operation` does, if the left operand, such as a constant,
/// has no value in the state. Both values are built first.
#[inline(never)]
fn evaluate_built_both(b: &Bounds, plan: &Plan, s: &State, of: Operation, out: &mut Val)
    requires operands { IsArgInBounds of.x × IsArgInBounds of.y }
    requires values { AreInLattice b.now s.now.regs }
    ensures of { out.new ≡ operation_in_state b.now plan.now s.now of.op of.x of.y }
    ensures value { IsInLattice b.now out.new }
{
    let v = build_arg(b, plan, s, of.x);
    evaluate_built_right(b, plan, s, of, &v, out);
}
