// What each row of the instruction table does.
ghost use Rattle.std.specs.Prelude.{◌≡◌, map};
ghost use Rattle.tc_isa.specs.Meanings.{meanings};
ghost use Rattle.tc_isa.specs.FromFields.{shape_from_fields};

use crate::meaning::Destination::{By, Code, In};
use crate::meaning::Displacement::{Ahead8, Ahead15, Ahead24, AheadOnly};
use crate::meaning::Immediate::{
    Address, High, Signed4, Signed9, Signed10, Signed16, SignedS2, Unsigned, UnsignedS2, Zero,
};
use crate::meaning::Meaning;
use crate::meaning::Meaning::{
    Always, Branches, Calls, Computes, Jumps, Loads, Masks, ReadsCore, Scales, Stores, Traps,
    WritesCore,
};
use crate::meaning::Operand::{At, Of};
use crate::meaning::RegField::{A10, Ac, As1, As2, D15, Dc, Ds1, Ds2};
use crate::{Cond, Op, ROW_COUNT, Shape};

// The meanings of the rows, in the order of the rows. Written by hand.
static MEANINGS: [Meaning; ROW_COUNT] = [
    Computes(Op::Add, Dc, At(Ds1), Of(Signed16)), // addi Dc, Ds1, sk
    Computes(Op::Add, Dc, At(Ds1), Of(High)), // addih Dc, Ds1, uk
    Computes(Op::Add, Ac, At(As1), Of(High)), // addih.a Ac, As1, uk
    Computes(Op::Second, Dc, Of(Zero), Of(Signed16)), // mov Dc, sk
    Computes(Op::Second, Dc, Of(Zero), Of(Unsigned)), // mov.u Dc, uk
    Computes(Op::Second, Dc, Of(Zero), Of(High)), // movh Dc, uk
    Computes(Op::Second, Ac, Of(Zero), Of(High)), // movh.a Ac, uk
    ReadsCore(Dc), // mfcr Dc, uk
    WritesCore(Ds1), // mtcr uk, Ds1
    Computes(Op::Add, Dc, At(Ds1), At(Ds2)), // add Dc, Ds1, Ds2
    Computes(Op::Sub, Dc, At(Ds1), At(Ds2)), // sub Dc, Ds1, Ds2
    Computes(Op::Eq, Dc, At(Ds1), At(Ds2)), // eq Dc, Ds1, Ds2
    Computes(Op::Ne, Dc, At(Ds1), At(Ds2)), // ne Dc, Ds1, Ds2
    Computes(Op::Lt, Dc, At(Ds1), At(Ds2)), // lt Dc, Ds1, Ds2
    Computes(Op::LtU, Dc, At(Ds1), At(Ds2)), // lt.u Dc, Ds1, Ds2
    Computes(Op::Ge, Dc, At(Ds1), At(Ds2)), // ge Dc, Ds1, Ds2
    Computes(Op::GeU, Dc, At(Ds1), At(Ds2)), // ge.u Dc, Ds1, Ds2
    Computes(Op::Second, Dc, Of(Zero), At(Ds2)), // mov Dc, Ds2
    Computes(Op::Sh, Dc, At(Ds1), At(Ds2)), // sh Dc, Ds1, Ds2
    Computes(Op::Sha, Dc, At(Ds1), At(Ds2)), // sha Dc, Ds1, Ds2
    Computes(Op::And, Dc, At(Ds1), At(Ds2)), // and Dc, Ds1, Ds2
    Computes(Op::Nand, Dc, At(Ds1), At(Ds2)), // nand Dc, Ds1, Ds2
    Computes(Op::Or, Dc, At(Ds1), At(Ds2)), // or Dc, Ds1, Ds2
    Computes(Op::Nor, Dc, At(Ds1), At(Ds2)), // nor Dc, Ds1, Ds2
    Computes(Op::Xor, Dc, At(Ds1), At(Ds2)), // xor Dc, Ds1, Ds2
    Computes(Op::Xnor, Dc, At(Ds1), At(Ds2)), // xnor Dc, Ds1, Ds2
    Computes(Op::Andn, Dc, At(Ds1), At(Ds2)), // andn Dc, Ds1, Ds2
    Computes(Op::Orn, Dc, At(Ds1), At(Ds2)), // orn Dc, Ds1, Ds2
    Computes(Op::Add, Dc, At(Ds1), Of(Signed9)), // add Dc, Ds1, sk
    Computes(Op::Sub, Dc, Of(Signed9), At(Ds1)), // rsub Dc, Ds1, sk
    Computes(Op::Eq, Dc, At(Ds1), Of(Signed9)), // eq Dc, Ds1, sk
    Computes(Op::Ne, Dc, At(Ds1), Of(Signed9)), // ne Dc, Ds1, sk
    Computes(Op::Lt, Dc, At(Ds1), Of(Signed9)), // lt Dc, Ds1, sk
    Computes(Op::LtU, Dc, At(Ds1), Of(Unsigned)), // lt.u Dc, Ds1, uk
    Computes(Op::Ge, Dc, At(Ds1), Of(Signed9)), // ge Dc, Ds1, sk
    Computes(Op::GeU, Dc, At(Ds1), Of(Unsigned)), // ge.u Dc, Ds1, uk
    Computes(Op::Sh, Dc, At(Ds1), Of(Signed9)), // sh Dc, Ds1, sk
    Computes(Op::Sha, Dc, At(Ds1), Of(Signed9)), // sha Dc, Ds1, sk
    Computes(Op::And, Dc, At(Ds1), Of(Unsigned)), // and Dc, Ds1, uk
    Computes(Op::Or, Dc, At(Ds1), Of(Unsigned)), // or Dc, Ds1, uk
    Computes(Op::Xor, Dc, At(Ds1), Of(Unsigned)), // xor Dc, Ds1, uk
    Masks, // bisr uk
    Traps, // syscall uk
    Computes(Op::Second, Ac, Of(Zero), At(As2)), // mov.aa Ac, As2
    Computes(Op::Add, Ac, At(As1), At(As2)), // add.a Ac, As1, As2
    Computes(Op::Sub, Ac, At(As1), At(As2)), // sub.a Ac, As1, As2
    Computes(Op::Second, Dc, Of(Zero), At(As2)), // mov.d Dc, As2
    Scales(Ac, As2, Ds1), // addsc.a Ac, As2, Ds1, n
    Computes(Op::Second, Ac, Of(Zero), At(Ds2)), // mov.a Ac, Ds2
    Calls(In(As1)), // calli As1
    Jumps(In(As1)), // ji As1
    Always(Shape::Nothing), // nop
    Always(Shape::Ret), // ret
    Always(Shape::Rfe), // rfe
    Always(Shape::Svlcx), // svlcx
    Always(Shape::Rslcx), // rslcx
    Always(Shape::Enable), // enable
    Always(Shape::Disable), // disable
    Always(Shape::Nothing), // dsync
    Always(Shape::Nothing), // isync
    Loads(Ds1, At(As2), Signed10, 1, true, true), // ld.b Ds1, [As2+]sk
    Loads(Ds1, At(As2), Signed10, 1, false, true), // ld.bu Ds1, [As2+]sk
    Loads(Ds1, At(As2), Signed10, 2, true, true), // ld.h Ds1, [As2+]sk
    Loads(Ds1, At(As2), Signed10, 2, false, true), // ld.hu Ds1, [As2+]sk
    Loads(Ds1, At(As2), Signed10, 4, false, true), // ld.w Ds1, [As2+]sk
    Loads(As1, At(As2), Signed10, 4, false, true), // ld.a As1, [As2+]sk
    Loads(Ds1, At(As2), Signed10, 1, true, false), // ld.b Ds1, [As2]sk
    Loads(Ds1, At(As2), Signed10, 1, false, false), // ld.bu Ds1, [As2]sk
    Loads(Ds1, At(As2), Signed10, 2, true, false), // ld.h Ds1, [As2]sk
    Loads(Ds1, At(As2), Signed10, 2, false, false), // ld.hu Ds1, [As2]sk
    Loads(Ds1, At(As2), Signed10, 4, false, false), // ld.w Ds1, [As2]sk
    Loads(As1, At(As2), Signed10, 4, false, false), // ld.a As1, [As2]sk
    Stores(Ds1, At(As2), Signed10, 1, true), // st.b [As2+]sk, Ds1
    Stores(Ds1, At(As2), Signed10, 2, true), // st.h [As2+]sk, Ds1
    Stores(Ds1, At(As2), Signed10, 4, true), // st.w [As2+]sk, Ds1
    Stores(As1, At(As2), Signed10, 4, true), // st.a [As2+]sk, As1
    Stores(Ds1, At(As2), Signed10, 1, false), // st.b [As2]sk, Ds1
    Stores(Ds1, At(As2), Signed10, 2, false), // st.h [As2]sk, Ds1
    Stores(Ds1, At(As2), Signed10, 4, false), // st.w [As2]sk, Ds1
    Stores(As1, At(As2), Signed10, 4, false), // st.a [As2]sk, As1
    Computes(Op::Add, As1, At(As2), Of(Signed10)), // lea As1, [As2]sk
    Loads(Ds1, At(As2), Signed16, 4, false, false), // ld.w.l Ds1, [As2]sk
    Loads(As1, At(As2), Signed16, 4, false, false), // ld.a.l As1, [As2]sk
    Stores(Ds1, At(As2), Signed16, 4, false), // st.w.l [As2]sk, Ds1
    Computes(Op::Add, As1, At(As2), Of(Signed16)), // lea.l As1, [As2]sk
    Loads(Ds1, Of(Address), Zero, 4, false, false), // ld.w Ds1, U
    Loads(As1, Of(Address), Zero, 4, false, false), // ld.a As1, U
    Stores(Ds1, Of(Address), Zero, 4, false), // st.w U, Ds1
    Stores(As1, Of(Address), Zero, 4, false), // st.a U, As1
    Computes(Op::Second, As1, Of(Zero), Of(Address)), // lea As1, U
    Branches(Cond::Eq, Ds1, At(Ds2), Ahead15, false), // jeq Ds1, Ds2, T
    Branches(Cond::Ne, Ds1, At(Ds2), Ahead15, false), // jne Ds1, Ds2, T
    Branches(Cond::Lt, Ds1, At(Ds2), Ahead15, false), // jlt Ds1, Ds2, T
    Branches(Cond::LtU, Ds1, At(Ds2), Ahead15, false), // jlt.u Ds1, Ds2, T
    Branches(Cond::Ge, Ds1, At(Ds2), Ahead15, false), // jge Ds1, Ds2, T
    Branches(Cond::GeU, Ds1, At(Ds2), Ahead15, false), // jge.u Ds1, Ds2, T
    Branches(Cond::Eq, As1, At(As2), Ahead15, false), // jeq.a As1, As2, T
    Branches(Cond::Ne, As1, At(As2), Ahead15, false), // jne.a As1, As2, T
    Branches(Cond::Eq, As1, Of(Zero), Ahead15, false), // jz.a As1, T
    Branches(Cond::Ne, As1, Of(Zero), Ahead15, false), // jnz.a As1, T
    Branches(Cond::Ne, As2, Of(Zero), Ahead15, true), // loop As2, T
    Branches(Cond::Eq, Ds1, Of(SignedS2), Ahead15, false), // jeq Ds1, sk4, T
    Branches(Cond::Ne, Ds1, Of(SignedS2), Ahead15, false), // jne Ds1, sk4, T
    Branches(Cond::Lt, Ds1, Of(SignedS2), Ahead15, false), // jlt Ds1, sk4, T
    Branches(Cond::Ge, Ds1, Of(SignedS2), Ahead15, false), // jge Ds1, sk4, T
    Branches(Cond::LtU, Ds1, Of(UnsignedS2), Ahead15, false), // jlt.u Ds1, uk4, T
    Branches(Cond::GeU, Ds1, Of(UnsignedS2), Ahead15, false), // jge.u Ds1, uk4, T
    Calls(By(Ahead24)), // call T
    Calls(Code), // calla U
    Jumps(By(Ahead24)), // j T
    Jumps(Code), // ja U
    Always(Shape::Nothing), // nop16
    Always(Shape::Rfe), // rfe16
    Always(Shape::Ret), // ret16
    Jumps(In(As1)), // ji16 As1
    Masks, // bisr16 uk
    Computes(Op::Second, D15, Of(Zero), Of(Unsigned)), // mov16.d15 uk
    Computes(Op::Sub, A10, At(A10), Of(Unsigned)), // sub16.a a10, uk
    Calls(By(Ahead8)), // call16 T
    Jumps(By(Ahead8)), // j16 T
    Branches(Cond::Eq, D15, Of(Zero), Ahead8, false), // jz16.d15 T
    Branches(Cond::Ne, D15, Of(Zero), Ahead8, false), // jnz16.d15 T
    Branches(Cond::Eq, Ds2, Of(Zero), AheadOnly, false), // jz16 Ds2, T
    Branches(Cond::Ne, Ds2, Of(Zero), AheadOnly, false), // jnz16 Ds2, T
    Computes(Op::Second, Ds1, Of(Zero), At(Ds2)), // mov16 Ds1, Ds2
    Computes(Op::Add, Ds1, At(Ds1), At(Ds2)), // add16 Ds1, Ds2
    Computes(Op::Sub, Ds1, At(Ds1), At(Ds2)), // sub16 Ds1, Ds2
    Computes(Op::And, Ds1, At(Ds1), At(Ds2)), // and16 Ds1, Ds2
    Computes(Op::Or, Ds1, At(Ds1), At(Ds2)), // or16 Ds1, Ds2
    Computes(Op::Xor, Ds1, At(Ds1), At(Ds2)), // xor16 Ds1, Ds2
    Computes(Op::Second, As1, Of(Zero), At(As2)), // mov16.aa As1, As2
    Computes(Op::Second, As1, Of(Zero), At(Ds2)), // mov16.a As1, Ds2
    Computes(Op::Second, Ds1, Of(Zero), At(As2)), // mov16.d Ds1, As2
    Computes(Op::Add, As1, At(As1), At(As2)), // add16.a As1, As2
    Computes(Op::Second, Ds1, Of(Zero), Of(Signed4)), // mov16 Ds1, sk
    Computes(Op::Add, Ds1, At(Ds1), Of(Signed4)), // add16 Ds1, sk
    Computes(Op::Second, As1, Of(Zero), Of(Unsigned)), // mov16.a As1, uk
    Computes(Op::Add, As1, At(As1), Of(Signed4)), // add16.a As1, sk
    Loads(Ds1, At(As2), Zero, 4, false, false), // ld16.w Ds1, [As2]
    Loads(As1, At(As2), Zero, 4, false, false), // ld16.a As1, [As2]
    Stores(Ds1, At(As2), Zero, 4, false), // st16.w [As2], Ds1
    Stores(As1, At(As2), Zero, 4, false), // st16.a [As2], As1
];

/// Returns the meanings of the rows of the instruction table, in their order: what a row's
/// instructions do, by their fields.
pub fn row_meanings() -> &'static [Meaning]
    ensures { map shape_from_fields result.now ≡ map (λ l. l.shape) meanings }
{
    &MEANINGS
}
