// The fields that each row has, as its operands say. Printed by tools/rows.py.
ghost use Rattle.std.specs.Prelude.{◌≡◌, map};
ghost use Rattle.tc_isa.specs.Rows.{table_rows};
ghost use Rattle.tc_isa.specs.ValidRowFields.{used_fields, are_unused_fields_zero};

use crate::{Fields, ROW_COUNT, Uses};

const C_K: Uses = Uses {
    c: true,
    s1: false,
    s2: false,
    n: false,
    k: true,
};

const C_S1_K: Uses = Uses {
    c: true,
    s1: true,
    s2: false,
    n: false,
    k: true,
};

const C_S1_S2: Uses = Uses {
    c: true,
    s1: true,
    s2: true,
    n: false,
    k: false,
};

const C_S1_S2_N: Uses = Uses {
    c: true,
    s1: true,
    s2: true,
    n: true,
    k: false,
};

const C_S2: Uses = Uses {
    c: true,
    s1: false,
    s2: true,
    n: false,
    k: false,
};

const K: Uses = Uses {
    c: false,
    s1: false,
    s2: false,
    n: false,
    k: true,
};

const NONE: Uses = Uses {
    c: false,
    s1: false,
    s2: false,
    n: false,
    k: false,
};

const S1: Uses = Uses {
    c: false,
    s1: true,
    s2: false,
    n: false,
    k: false,
};

const S1_K: Uses = Uses {
    c: false,
    s1: true,
    s2: false,
    n: false,
    k: true,
};

const S1_S2: Uses = Uses {
    c: false,
    s1: true,
    s2: true,
    n: false,
    k: false,
};

const S1_S2_K: Uses = Uses {
    c: false,
    s1: true,
    s2: true,
    n: false,
    k: true,
};

const S2_K: Uses = Uses {
    c: false,
    s1: false,
    s2: true,
    n: false,
    k: true,
};

static USES: [Uses; ROW_COUNT] = [
    C_S1_K, // addi Dc, Ds1, sk
    C_S1_K, // addih Dc, Ds1, uk
    C_S1_K, // addih.a Ac, As1, uk
    C_K, // mov Dc, sk
    C_K, // mov.u Dc, uk
    C_K, // movh Dc, uk
    C_K, // movh.a Ac, uk
    C_K, // mfcr Dc, uk
    S1_K, // mtcr uk, Ds1
    C_S1_S2, // add Dc, Ds1, Ds2
    C_S1_S2, // sub Dc, Ds1, Ds2
    C_S1_S2, // eq Dc, Ds1, Ds2
    C_S1_S2, // ne Dc, Ds1, Ds2
    C_S1_S2, // lt Dc, Ds1, Ds2
    C_S1_S2, // lt.u Dc, Ds1, Ds2
    C_S1_S2, // ge Dc, Ds1, Ds2
    C_S1_S2, // ge.u Dc, Ds1, Ds2
    C_S2, // mov Dc, Ds2
    C_S1_S2, // sh Dc, Ds1, Ds2
    C_S1_S2, // sha Dc, Ds1, Ds2
    C_S1_S2, // and Dc, Ds1, Ds2
    C_S1_S2, // nand Dc, Ds1, Ds2
    C_S1_S2, // or Dc, Ds1, Ds2
    C_S1_S2, // nor Dc, Ds1, Ds2
    C_S1_S2, // xor Dc, Ds1, Ds2
    C_S1_S2, // xnor Dc, Ds1, Ds2
    C_S1_S2, // andn Dc, Ds1, Ds2
    C_S1_S2, // orn Dc, Ds1, Ds2
    C_S1_K, // add Dc, Ds1, sk
    C_S1_K, // rsub Dc, Ds1, sk
    C_S1_K, // eq Dc, Ds1, sk
    C_S1_K, // ne Dc, Ds1, sk
    C_S1_K, // lt Dc, Ds1, sk
    C_S1_K, // lt.u Dc, Ds1, uk
    C_S1_K, // ge Dc, Ds1, sk
    C_S1_K, // ge.u Dc, Ds1, uk
    C_S1_K, // sh Dc, Ds1, sk
    C_S1_K, // sha Dc, Ds1, sk
    C_S1_K, // and Dc, Ds1, uk
    C_S1_K, // or Dc, Ds1, uk
    C_S1_K, // xor Dc, Ds1, uk
    K, // bisr uk
    K, // syscall uk
    C_S2, // mov.aa Ac, As2
    C_S1_S2, // add.a Ac, As1, As2
    C_S1_S2, // sub.a Ac, As1, As2
    C_S2, // mov.d Dc, As2
    C_S1_S2_N, // addsc.a Ac, As2, Ds1, n
    C_S2, // mov.a Ac, Ds2
    S1, // calli As1
    S1, // ji As1
    NONE, // nop
    NONE, // ret
    NONE, // rfe
    NONE, // svlcx
    NONE, // rslcx
    NONE, // enable
    NONE, // disable
    NONE, // dsync
    NONE, // isync
    S1_S2_K, // ld.b Ds1, [As2+]sk
    S1_S2_K, // ld.bu Ds1, [As2+]sk
    S1_S2_K, // ld.h Ds1, [As2+]sk
    S1_S2_K, // ld.hu Ds1, [As2+]sk
    S1_S2_K, // ld.w Ds1, [As2+]sk
    S1_S2_K, // ld.a As1, [As2+]sk
    S1_S2_K, // ld.b Ds1, [As2]sk
    S1_S2_K, // ld.bu Ds1, [As2]sk
    S1_S2_K, // ld.h Ds1, [As2]sk
    S1_S2_K, // ld.hu Ds1, [As2]sk
    S1_S2_K, // ld.w Ds1, [As2]sk
    S1_S2_K, // ld.a As1, [As2]sk
    S1_S2_K, // st.b [As2+]sk, Ds1
    S1_S2_K, // st.h [As2+]sk, Ds1
    S1_S2_K, // st.w [As2+]sk, Ds1
    S1_S2_K, // st.a [As2+]sk, As1
    S1_S2_K, // st.b [As2]sk, Ds1
    S1_S2_K, // st.h [As2]sk, Ds1
    S1_S2_K, // st.w [As2]sk, Ds1
    S1_S2_K, // st.a [As2]sk, As1
    S1_S2_K, // lea As1, [As2]sk
    S1_S2_K, // ld.w.l Ds1, [As2]sk
    S1_S2_K, // ld.a.l As1, [As2]sk
    S1_S2_K, // st.w.l [As2]sk, Ds1
    S1_S2_K, // lea.l As1, [As2]sk
    S1_K, // ld.w Ds1, U
    S1_K, // ld.a As1, U
    S1_K, // st.w U, Ds1
    S1_K, // st.a U, As1
    S1_K, // lea As1, U
    S1_S2_K, // jeq Ds1, Ds2, T
    S1_S2_K, // jne Ds1, Ds2, T
    S1_S2_K, // jlt Ds1, Ds2, T
    S1_S2_K, // jlt.u Ds1, Ds2, T
    S1_S2_K, // jge Ds1, Ds2, T
    S1_S2_K, // jge.u Ds1, Ds2, T
    S1_S2_K, // jeq.a As1, As2, T
    S1_S2_K, // jne.a As1, As2, T
    S1_K, // jz.a As1, T
    S1_K, // jnz.a As1, T
    S2_K, // loop As2, T
    S1_S2_K, // jeq Ds1, sk4, T
    S1_S2_K, // jne Ds1, sk4, T
    S1_S2_K, // jlt Ds1, sk4, T
    S1_S2_K, // jge Ds1, sk4, T
    S1_S2_K, // jlt.u Ds1, uk4, T
    S1_S2_K, // jge.u Ds1, uk4, T
    K, // call T
    K, // calla U
    K, // j T
    K, // ja U
    NONE, // nop16
    NONE, // rfe16
    NONE, // ret16
    S1, // ji16 As1
    K, // bisr16 uk
    K, // mov16.d15 uk
    K, // sub16.a a10, uk
    K, // call16 T
    K, // j16 T
    K, // jz16.d15 T
    K, // jnz16.d15 T
    S2_K, // jz16 Ds2, T
    S2_K, // jnz16 Ds2, T
    S1_S2, // mov16 Ds1, Ds2
    S1_S2, // add16 Ds1, Ds2
    S1_S2, // sub16 Ds1, Ds2
    S1_S2, // and16 Ds1, Ds2
    S1_S2, // or16 Ds1, Ds2
    S1_S2, // xor16 Ds1, Ds2
    S1_S2, // mov16.aa As1, As2
    S1_S2, // mov16.a As1, Ds2
    S1_S2, // mov16.d Ds1, As2
    S1_S2, // add16.a As1, As2
    S1_K, // mov16 Ds1, sk
    S1_K, // add16 Ds1, sk
    S1_K, // mov16.a As1, uk
    S1_K, // add16.a As1, sk
    S1_S2, // ld16.w Ds1, [As2]
    S1_S2, // ld16.a As1, [As2]
    S1_S2, // st16.w [As2], Ds1
    S1_S2, // st16.a [As2], As1
];

/// Returns for each row of the instruction table, in order, which operand fields it has.
pub fn used_fields_by_row() -> &'static [Uses]
    ensures { result.now ≡ map used_fields table_rows }
{
    &USES
}

/// Returns true if each field that a row doesn't have is 0; `uses` says which fields the row has.
#[inline(always)]
pub fn are_unused_fields_zero(uses: &Uses, f: &Fields) -> bool
    ensures { result ≡ are_unused_fields_zero uses.now f.now }
{
    (uses.c || f.c == 0)
        && (uses.s1 || f.s1 == 0)
        && (uses.s2 || f.s2 == 0)
        && (uses.n || f.n == 0)
        && (uses.k || f.k == 0)
}
