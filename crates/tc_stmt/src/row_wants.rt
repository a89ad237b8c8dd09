// The operands that each row wants. Printed by tools/rows.py.
ghost use Rattle.std.specs.Prelude.{◌≡◌, map};
ghost use Rattle.tc_isa.specs.Rows.{table_rows};
ghost use Rattle.tc_stmt.specs.Wants.{wants_of, row_wants_now};

use crate::want::{Field, Want};
use tc_isa::ROW_COUNT;

/// The operands that each row wants, in the order of the rows.
pub static WANTS: [&[Want]; ROW_COUNT] = [
    &[
        Want::Reg(false, Field::C),
        Want::Reg(false, Field::S1),
        Want::Number(true, Field::K),
    ], // addi Dc, Ds1, sk
    &[
        Want::Reg(false, Field::C),
        Want::Reg(false, Field::S1),
        Want::Number(false, Field::K),
    ], // addih Dc, Ds1, uk
    &[
        Want::Reg(true, Field::C),
        Want::Reg(true, Field::S1),
        Want::Number(false, Field::K),
    ], // addih.a Ac, As1, uk
    &[Want::Reg(false, Field::C), Want::Number(true, Field::K)], // mov Dc, sk
    &[Want::Reg(false, Field::C), Want::Number(false, Field::K)], // mov.u Dc, uk
    &[Want::Reg(false, Field::C), Want::Number(false, Field::K)], // movh Dc, uk
    &[Want::Reg(true, Field::C), Want::Number(false, Field::K)], // movh.a Ac, uk
    &[Want::Reg(false, Field::C), Want::Number(false, Field::K)], // mfcr Dc, uk
    &[Want::Number(false, Field::K), Want::Reg(false, Field::S1)], // mtcr uk, Ds1
    &[
        Want::Reg(false, Field::C),
        Want::Reg(false, Field::S1),
        Want::Reg(false, Field::S2),
    ], // add Dc, Ds1, Ds2
    &[
        Want::Reg(false, Field::C),
        Want::Reg(false, Field::S1),
        Want::Reg(false, Field::S2),
    ], // sub Dc, Ds1, Ds2
    &[
        Want::Reg(false, Field::C),
        Want::Reg(false, Field::S1),
        Want::Reg(false, Field::S2),
    ], // eq Dc, Ds1, Ds2
    &[
        Want::Reg(false, Field::C),
        Want::Reg(false, Field::S1),
        Want::Reg(false, Field::S2),
    ], // ne Dc, Ds1, Ds2
    &[
        Want::Reg(false, Field::C),
        Want::Reg(false, Field::S1),
        Want::Reg(false, Field::S2),
    ], // lt Dc, Ds1, Ds2
    &[
        Want::Reg(false, Field::C),
        Want::Reg(false, Field::S1),
        Want::Reg(false, Field::S2),
    ], // lt.u Dc, Ds1, Ds2
    &[
        Want::Reg(false, Field::C),
        Want::Reg(false, Field::S1),
        Want::Reg(false, Field::S2),
    ], // ge Dc, Ds1, Ds2
    &[
        Want::Reg(false, Field::C),
        Want::Reg(false, Field::S1),
        Want::Reg(false, Field::S2),
    ], // ge.u Dc, Ds1, Ds2
    &[Want::Reg(false, Field::C), Want::Reg(false, Field::S2)], // mov Dc, Ds2
    &[
        Want::Reg(false, Field::C),
        Want::Reg(false, Field::S1),
        Want::Reg(false, Field::S2),
    ], // sh Dc, Ds1, Ds2
    &[
        Want::Reg(false, Field::C),
        Want::Reg(false, Field::S1),
        Want::Reg(false, Field::S2),
    ], // sha Dc, Ds1, Ds2
    &[
        Want::Reg(false, Field::C),
        Want::Reg(false, Field::S1),
        Want::Reg(false, Field::S2),
    ], // and Dc, Ds1, Ds2
    &[
        Want::Reg(false, Field::C),
        Want::Reg(false, Field::S1),
        Want::Reg(false, Field::S2),
    ], // nand Dc, Ds1, Ds2
    &[
        Want::Reg(false, Field::C),
        Want::Reg(false, Field::S1),
        Want::Reg(false, Field::S2),
    ], // or Dc, Ds1, Ds2
    &[
        Want::Reg(false, Field::C),
        Want::Reg(false, Field::S1),
        Want::Reg(false, Field::S2),
    ], // nor Dc, Ds1, Ds2
    &[
        Want::Reg(false, Field::C),
        Want::Reg(false, Field::S1),
        Want::Reg(false, Field::S2),
    ], // xor Dc, Ds1, Ds2
    &[
        Want::Reg(false, Field::C),
        Want::Reg(false, Field::S1),
        Want::Reg(false, Field::S2),
    ], // xnor Dc, Ds1, Ds2
    &[
        Want::Reg(false, Field::C),
        Want::Reg(false, Field::S1),
        Want::Reg(false, Field::S2),
    ], // andn Dc, Ds1, Ds2
    &[
        Want::Reg(false, Field::C),
        Want::Reg(false, Field::S1),
        Want::Reg(false, Field::S2),
    ], // orn Dc, Ds1, Ds2
    &[
        Want::Reg(false, Field::C),
        Want::Reg(false, Field::S1),
        Want::Number(true, Field::K),
    ], // add Dc, Ds1, sk
    &[
        Want::Reg(false, Field::C),
        Want::Reg(false, Field::S1),
        Want::Number(true, Field::K),
    ], // rsub Dc, Ds1, sk
    &[
        Want::Reg(false, Field::C),
        Want::Reg(false, Field::S1),
        Want::Number(true, Field::K),
    ], // eq Dc, Ds1, sk
    &[
        Want::Reg(false, Field::C),
        Want::Reg(false, Field::S1),
        Want::Number(true, Field::K),
    ], // ne Dc, Ds1, sk
    &[
        Want::Reg(false, Field::C),
        Want::Reg(false, Field::S1),
        Want::Number(true, Field::K),
    ], // lt Dc, Ds1, sk
    &[
        Want::Reg(false, Field::C),
        Want::Reg(false, Field::S1),
        Want::Number(false, Field::K),
    ], // lt.u Dc, Ds1, uk
    &[
        Want::Reg(false, Field::C),
        Want::Reg(false, Field::S1),
        Want::Number(true, Field::K),
    ], // ge Dc, Ds1, sk
    &[
        Want::Reg(false, Field::C),
        Want::Reg(false, Field::S1),
        Want::Number(false, Field::K),
    ], // ge.u Dc, Ds1, uk
    &[
        Want::Reg(false, Field::C),
        Want::Reg(false, Field::S1),
        Want::Number(true, Field::K),
    ], // sh Dc, Ds1, sk
    &[
        Want::Reg(false, Field::C),
        Want::Reg(false, Field::S1),
        Want::Number(true, Field::K),
    ], // sha Dc, Ds1, sk
    &[
        Want::Reg(false, Field::C),
        Want::Reg(false, Field::S1),
        Want::Number(false, Field::K),
    ], // and Dc, Ds1, uk
    &[
        Want::Reg(false, Field::C),
        Want::Reg(false, Field::S1),
        Want::Number(false, Field::K),
    ], // or Dc, Ds1, uk
    &[
        Want::Reg(false, Field::C),
        Want::Reg(false, Field::S1),
        Want::Number(false, Field::K),
    ], // xor Dc, Ds1, uk
    &[Want::Number(false, Field::K)], // bisr uk
    &[Want::Number(false, Field::K)], // syscall uk
    &[Want::Reg(true, Field::C), Want::Reg(true, Field::S2)], // mov.aa Ac, As2
    &[
        Want::Reg(true, Field::C),
        Want::Reg(true, Field::S1),
        Want::Reg(true, Field::S2),
    ], // add.a Ac, As1, As2
    &[
        Want::Reg(true, Field::C),
        Want::Reg(true, Field::S1),
        Want::Reg(true, Field::S2),
    ], // sub.a Ac, As1, As2
    &[Want::Reg(false, Field::C), Want::Reg(true, Field::S2)], // mov.d Dc, As2
    &[
        Want::Reg(true, Field::C),
        Want::Reg(true, Field::S2),
        Want::Reg(false, Field::S1),
        Want::Number(false, Field::N),
    ], // addsc.a Ac, As2, Ds1, n
    &[Want::Reg(true, Field::C), Want::Reg(false, Field::S2)], // mov.a Ac, Ds2
    &[Want::Reg(true, Field::S1)], // calli As1
    &[Want::Reg(true, Field::S1)], // ji As1
    &[], // nop
    &[], // ret
    &[], // rfe
    &[], // svlcx
    &[], // rslcx
    &[], // enable
    &[], // disable
    &[], // dsync
    &[], // isync
    &[Want::Reg(false, Field::S1), Want::Memory(true, true)], // ld.b Ds1, [As2+]sk
    &[Want::Reg(false, Field::S1), Want::Memory(true, true)], // ld.bu Ds1, [As2+]sk
    &[Want::Reg(false, Field::S1), Want::Memory(true, true)], // ld.h Ds1, [As2+]sk
    &[Want::Reg(false, Field::S1), Want::Memory(true, true)], // ld.hu Ds1, [As2+]sk
    &[Want::Reg(false, Field::S1), Want::Memory(true, true)], // ld.w Ds1, [As2+]sk
    &[Want::Reg(true, Field::S1), Want::Memory(true, true)], // ld.a As1, [As2+]sk
    &[Want::Reg(false, Field::S1), Want::Memory(false, true)], // ld.b Ds1, [As2]sk
    &[Want::Reg(false, Field::S1), Want::Memory(false, true)], // ld.bu Ds1, [As2]sk
    &[Want::Reg(false, Field::S1), Want::Memory(false, true)], // ld.h Ds1, [As2]sk
    &[Want::Reg(false, Field::S1), Want::Memory(false, true)], // ld.hu Ds1, [As2]sk
    &[Want::Reg(false, Field::S1), Want::Memory(false, true)], // ld.w Ds1, [As2]sk
    &[Want::Reg(true, Field::S1), Want::Memory(false, true)], // ld.a As1, [As2]sk
    &[Want::Memory(true, true), Want::Reg(false, Field::S1)], // st.b [As2+]sk, Ds1
    &[Want::Memory(true, true), Want::Reg(false, Field::S1)], // st.h [As2+]sk, Ds1
    &[Want::Memory(true, true), Want::Reg(false, Field::S1)], // st.w [As2+]sk, Ds1
    &[Want::Memory(true, true), Want::Reg(true, Field::S1)], // st.a [As2+]sk, As1
    &[Want::Memory(false, true), Want::Reg(false, Field::S1)], // st.b [As2]sk, Ds1
    &[Want::Memory(false, true), Want::Reg(false, Field::S1)], // st.h [As2]sk, Ds1
    &[Want::Memory(false, true), Want::Reg(false, Field::S1)], // st.w [As2]sk, Ds1
    &[Want::Memory(false, true), Want::Reg(true, Field::S1)], // st.a [As2]sk, As1
    &[Want::Reg(true, Field::S1), Want::Memory(false, true)], // lea As1, [As2]sk
    &[Want::Reg(false, Field::S1), Want::Memory(false, true)], // ld.w.l Ds1, [As2]sk
    &[Want::Reg(true, Field::S1), Want::Memory(false, true)], // ld.a.l As1, [As2]sk
    &[Want::Memory(false, true), Want::Reg(false, Field::S1)], // st.w.l [As2]sk, Ds1
    &[Want::Reg(true, Field::S1), Want::Memory(false, true)], // lea.l As1, [As2]sk
    &[Want::Reg(false, Field::S1), Want::Absolute], // ld.w Ds1, U
    &[Want::Reg(true, Field::S1), Want::Absolute], // ld.a As1, U
    &[Want::Absolute, Want::Reg(false, Field::S1)], // st.w U, Ds1
    &[Want::Absolute, Want::Reg(true, Field::S1)], // st.a U, As1
    &[Want::Reg(true, Field::S1), Want::Absolute], // lea As1, U
    &[
        Want::Reg(false, Field::S1),
        Want::Reg(false, Field::S2),
        Want::Target,
    ], // jeq Ds1, Ds2, T
    &[
        Want::Reg(false, Field::S1),
        Want::Reg(false, Field::S2),
        Want::Target,
    ], // jne Ds1, Ds2, T
    &[
        Want::Reg(false, Field::S1),
        Want::Reg(false, Field::S2),
        Want::Target,
    ], // jlt Ds1, Ds2, T
    &[
        Want::Reg(false, Field::S1),
        Want::Reg(false, Field::S2),
        Want::Target,
    ], // jlt.u Ds1, Ds2, T
    &[
        Want::Reg(false, Field::S1),
        Want::Reg(false, Field::S2),
        Want::Target,
    ], // jge Ds1, Ds2, T
    &[
        Want::Reg(false, Field::S1),
        Want::Reg(false, Field::S2),
        Want::Target,
    ], // jge.u Ds1, Ds2, T
    &[
        Want::Reg(true, Field::S1),
        Want::Reg(true, Field::S2),
        Want::Target,
    ], // jeq.a As1, As2, T
    &[
        Want::Reg(true, Field::S1),
        Want::Reg(true, Field::S2),
        Want::Target,
    ], // jne.a As1, As2, T
    &[Want::Reg(true, Field::S1), Want::Target], // jz.a As1, T
    &[Want::Reg(true, Field::S1), Want::Target], // jnz.a As1, T
    &[Want::Reg(true, Field::S2), Want::Target], // loop As2, T
    &[
        Want::Reg(false, Field::S1),
        Want::Number(true, Field::S2),
        Want::Target,
    ], // jeq Ds1, sk4, T
    &[
        Want::Reg(false, Field::S1),
        Want::Number(true, Field::S2),
        Want::Target,
    ], // jne Ds1, sk4, T
    &[
        Want::Reg(false, Field::S1),
        Want::Number(true, Field::S2),
        Want::Target,
    ], // jlt Ds1, sk4, T
    &[
        Want::Reg(false, Field::S1),
        Want::Number(true, Field::S2),
        Want::Target,
    ], // jge Ds1, sk4, T
    &[
        Want::Reg(false, Field::S1),
        Want::Number(false, Field::S2),
        Want::Target,
    ], // jlt.u Ds1, uk4, T
    &[
        Want::Reg(false, Field::S1),
        Want::Number(false, Field::S2),
        Want::Target,
    ], // jge.u Ds1, uk4, T
    &[Want::Target], // call T
    &[Want::Absolute], // calla U
    &[Want::Target], // j T
    &[Want::Absolute], // ja U
    &[], // nop16
    &[], // rfe16
    &[], // ret16
    &[Want::Reg(true, Field::S1)], // ji16 As1
    &[Want::Number(false, Field::K)], // bisr16 uk
    &[Want::Number(false, Field::K)], // mov16.d15 uk
    &[Want::A10, Want::Number(false, Field::K)], // sub16.a a10, uk
    &[Want::Target], // call16 T
    &[Want::Target], // j16 T
    &[Want::Target], // jz16.d15 T
    &[Want::Target], // jnz16.d15 T
    &[Want::Reg(false, Field::S2), Want::Target], // jz16 Ds2, T
    &[Want::Reg(false, Field::S2), Want::Target], // jnz16 Ds2, T
    &[Want::Reg(false, Field::S1), Want::Reg(false, Field::S2)], // mov16 Ds1, Ds2
    &[Want::Reg(false, Field::S1), Want::Reg(false, Field::S2)], // add16 Ds1, Ds2
    &[Want::Reg(false, Field::S1), Want::Reg(false, Field::S2)], // sub16 Ds1, Ds2
    &[Want::Reg(false, Field::S1), Want::Reg(false, Field::S2)], // and16 Ds1, Ds2
    &[Want::Reg(false, Field::S1), Want::Reg(false, Field::S2)], // or16 Ds1, Ds2
    &[Want::Reg(false, Field::S1), Want::Reg(false, Field::S2)], // xor16 Ds1, Ds2
    &[Want::Reg(true, Field::S1), Want::Reg(true, Field::S2)], // mov16.aa As1, As2
    &[Want::Reg(true, Field::S1), Want::Reg(false, Field::S2)], // mov16.a As1, Ds2
    &[Want::Reg(false, Field::S1), Want::Reg(true, Field::S2)], // mov16.d Ds1, As2
    &[Want::Reg(true, Field::S1), Want::Reg(true, Field::S2)], // add16.a As1, As2
    &[Want::Reg(false, Field::S1), Want::Number(true, Field::K)], // mov16 Ds1, sk
    &[Want::Reg(false, Field::S1), Want::Number(true, Field::K)], // add16 Ds1, sk
    &[Want::Reg(true, Field::S1), Want::Number(false, Field::K)], // mov16.a As1, uk
    &[Want::Reg(true, Field::S1), Want::Number(true, Field::K)], // add16.a As1, sk
    &[Want::Reg(false, Field::S1), Want::Memory(false, false)], // ld16.w Ds1, [As2]
    &[Want::Reg(true, Field::S1), Want::Memory(false, false)], // ld16.a As1, [As2]
    &[Want::Memory(false, false), Want::Reg(false, Field::S1)], // st16.w [As2], Ds1
    &[Want::Memory(false, false), Want::Reg(true, Field::S1)], // st16.a [As2], As1
];

/// The kinds of operands that each row of the instruction table takes, in the order of the rows.
#[tactic(auto, unfolding(crate::specs::Wants::wants_of, crate::specs::Wants::want_of))]
pub fn wants() -> &'static [&'static [Want]]
    ensures { map row_wants_now result.now ≡ map wants_of table_rows }
{
    &WANTS
}
