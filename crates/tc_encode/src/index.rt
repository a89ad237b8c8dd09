// Index of the rows by their codes. Printed by tools/rows.py.
ghost use Rattle.std.specs.Prelude.{◌≡◌, length, map, true, nat_le, nat_lt, ◌<◌, ℕ, IfSome, slice_get, Some};
ghost use Rattle.std.specs.List.{list_all};
ghost use Rattle.tc_isa.specs.Rows.{table_rows, RowData};
ghost use Rattle.tc_encode.specs.WordSearch.{IndexesRowsByFirstByte, IndexesRowsByOpcodes, has_all_fields};
ghost use Rattle.tc_isa.specs.Forms.{form_index};

use tc_isa::{Form, ROW_COUNT, rows};

// By the first byte: the place of the first row with it.
static STARTS: [u8; 256] = [
    111, 43, 124, 0, 0, 0, 0, 0, 0, 60, 0, 9, 0, 51, 0, 18, 0, 2, 0, 0, 0, 0, 0, 0, 0, 81, 0, 0, 0,
    109, 0, 0, 117, 0, 0, 0, 0, 0, 127, 0, 0, 0, 0, 0, 0, 49, 0, 0, 133, 0, 0, 0, 0, 0, 0, 0, 0, 0,
    0, 3, 119, 0, 0, 92, 130, 0, 125, 0, 0, 0, 0, 0, 0, 80, 0, 0, 0, 7, 0, 0, 0, 0, 0, 0, 138, 0,
    0, 0, 0, 83, 0, 0, 118, 0, 0, 90, 131, 0, 0, 0, 0, 0, 0, 0, 0, 0, 0, 0, 0, 107, 120, 0, 0, 0,
    0, 0, 140, 0, 122, 0, 0, 0, 0, 5, 0, 96, 0, 94, 132, 0, 134, 0, 0, 85, 0, 0, 0, 72, 0, 28, 0,
    0, 0, 36, 0, 6, 0, 0, 0, 0, 0, 0, 0, 82, 0, 1, 0, 110, 0, 0, 136, 0, 126, 0, 0, 87, 128, 0, 0,
    0, 0, 0, 0, 41, 0, 0, 137, 0, 0, 0, 0, 0, 0, 0, 0, 0, 0, 4, 0, 98, 0, 103, 0, 0, 135, 0, 0, 89,
    129, 0, 0, 0, 0, 0, 0, 8, 0, 0, 0, 0, 0, 0, 139, 0, 0, 0, 0, 84, 116, 0, 114, 0, 0, 101, 115,
    0, 0, 0, 0, 0, 0, 0, 0, 0, 0, 0, 0, 108, 121, 0, 0, 0, 0, 0, 141, 0, 123, 0, 0, 0, 0, 0, 0,
    100, 0, 104,
];

// By the first byte: the place after the last row with it, or 0 if there is none.
static ENDS: [u8; 256] = [
    114, 49, 125, 0, 0, 0, 0, 0, 0, 72, 0, 18, 0, 60, 0, 28, 0, 3, 0, 0, 0, 0, 0, 0, 0, 82, 0, 1,
    0, 110, 0, 0, 118, 0, 0, 0, 0, 0, 128, 0, 0, 0, 0, 0, 0, 51, 0, 0, 134, 0, 0, 0, 0, 0, 0, 0, 0,
    0, 0, 4, 120, 0, 0, 94, 131, 0, 126, 0, 0, 0, 0, 0, 0, 81, 0, 0, 0, 8, 0, 0, 0, 0, 0, 0, 139,
    0, 0, 0, 0, 84, 0, 0, 119, 0, 0, 92, 132, 0, 0, 0, 0, 0, 0, 0, 0, 0, 0, 0, 0, 108, 121, 0, 0,
    0, 0, 0, 141, 0, 123, 0, 0, 0, 0, 6, 0, 98, 0, 96, 133, 0, 135, 0, 0, 87, 0, 0, 0, 80, 0, 36,
    0, 0, 0, 41, 0, 7, 0, 0, 0, 0, 0, 0, 0, 83, 0, 2, 0, 111, 0, 0, 137, 0, 127, 0, 0, 89, 129, 0,
    0, 0, 0, 0, 0, 43, 0, 0, 138, 0, 0, 0, 0, 0, 0, 0, 0, 0, 0, 5, 0, 100, 0, 106, 0, 0, 136, 0, 0,
    90, 130, 0, 0, 0, 0, 0, 0, 9, 0, 0, 0, 0, 0, 0, 140, 0, 0, 0, 0, 85, 117, 0, 115, 0, 0, 103,
    116, 0, 0, 0, 0, 0, 0, 0, 0, 0, 0, 0, 0, 109, 122, 0, 0, 0, 0, 0, 142, 0, 124, 0, 0, 0, 0, 0,
    0, 101, 0, 107,
];

/// Returns two lists with an entry for each first byte of an instruction. The entries are the
/// number of the first table row with that byte, and the number after the last, or 0 if there is
/// none.
pub fn index_by_first_byte() -> (&'static [u8; 256], &'static [u8; 256])
    ensures starts { length result.0.now ≡ 256 }
    ensures start_within { list_all (λ n. nat_lt n ROW_COUNT) result.0.now ≡ true }
    ensures ends { length result.1.now ≡ 256 }
    ensures all { IndexesRowsByFirstByte result.0.now result.1.now }
    ensures within { list_all (λ n. nat_le n ROW_COUNT) result.1.now ≡ true }
{
    (&STARTS, &ENDS)
}

// By the first byte: the place in `PLACES` at which its rows begin, or 0 if it has none.
static BASES: [u16; 256] = [
    0, 10, 110, 0, 0, 0, 0, 0, 0, 111, 0, 150, 0, 182, 0, 202, 0, 218, 0, 0, 0, 0, 0, 0, 0, 219, 0,
    220, 0, 221, 0, 0, 222, 0, 0, 0, 0, 0, 223, 0, 0, 0, 0, 0, 0, 224, 0, 0, 228, 0, 0, 0, 0, 0, 0,
    0, 0, 0, 0, 229, 230, 0, 0, 231, 233, 0, 234, 0, 0, 0, 0, 0, 0, 235, 0, 0, 0, 276, 0, 0, 0, 0,
    0, 0, 277, 0, 0, 0, 0, 278, 0, 0, 279, 0, 0, 280, 282, 0, 0, 0, 0, 0, 0, 0, 0, 0, 0, 0, 0, 283,
    284, 0, 0, 0, 0, 0, 285, 0, 286, 0, 0, 0, 0, 287, 0, 288, 0, 290, 292, 0, 293, 0, 0, 294, 0, 0,
    0, 297, 0, 336, 0, 0, 0, 358, 0, 371, 0, 0, 0, 0, 0, 0, 0, 372, 0, 373, 0, 374, 0, 0, 375, 0,
    376, 0, 0, 377, 380, 0, 0, 0, 0, 0, 0, 381, 0, 0, 386, 0, 0, 0, 0, 0, 0, 0, 0, 0, 0, 387, 0,
    388, 0, 390, 0, 0, 392, 0, 0, 393, 394, 0, 0, 0, 0, 0, 0, 395, 0, 0, 0, 0, 0, 0, 396, 0, 0, 0,
    0, 397, 398, 0, 399, 0, 0, 400, 402, 0, 0, 0, 0, 0, 0, 0, 0, 0, 0, 0, 0, 403, 404, 0, 0, 0, 0,
    0, 405, 0, 406, 0, 0, 0, 0, 0, 0, 407, 0, 408,
];

// The number of places below.
const PLACE_COUNT: usize = 410;

// The places of rows: for each first byte from its base on, by the second code; 0 if there is none.
static PLACES: [u8; PLACE_COUNT] = [
    111, 0, 0, 0, 0, 0, 0, 0, 112, 113, 43, 44, 45, 0, 0, 0, 0, 0, 0, 0, 0, 0, 0, 0, 0, 0, 0, 0, 0,
    0, 0, 0, 0, 0, 0, 0, 0, 0, 0, 0, 0, 0, 0, 0, 0, 0, 0, 0, 0, 0, 0, 0, 0, 0, 0, 0, 0, 0, 0, 0, 0,
    0, 0, 0, 0, 0, 0, 0, 0, 0, 0, 0, 0, 0, 0, 0, 0, 0, 0, 0, 0, 0, 0, 0, 0, 0, 46, 0, 0, 0, 0, 0,
    0, 0, 0, 0, 0, 0, 0, 0, 0, 0, 0, 0, 0, 0, 47, 0, 0, 48, 124, 60, 61, 62, 63, 64, 0, 65, 0, 0,
    0, 0, 0, 0, 0, 0, 0, 0, 0, 0, 0, 0, 0, 0, 0, 0, 0, 0, 0, 0, 0, 0, 0, 66, 67, 68, 69, 70, 0, 71,
    9, 0, 0, 0, 0, 0, 0, 0, 10, 0, 0, 0, 0, 0, 0, 0, 11, 12, 13, 14, 15, 16, 0, 0, 0, 0, 0, 0, 0,
    0, 0, 17, 51, 0, 0, 0, 0, 0, 52, 53, 54, 55, 0, 0, 56, 57, 0, 0, 0, 0, 58, 59, 18, 19, 0, 0, 0,
    0, 0, 0, 20, 21, 22, 23, 24, 25, 26, 27, 2, 81, 0, 109, 117, 127, 49, 0, 0, 50, 133, 3, 119,
    92, 93, 130, 125, 0, 0, 0, 0, 0, 0, 0, 0, 0, 0, 0, 0, 0, 0, 0, 0, 0, 0, 0, 0, 0, 0, 0, 0, 0, 0,
    0, 0, 0, 0, 0, 0, 0, 0, 0, 0, 0, 0, 0, 0, 80, 7, 138, 83, 118, 90, 91, 131, 107, 120, 140, 122,
    5, 96, 97, 94, 95, 132, 134, 85, 0, 86, 72, 0, 73, 0, 74, 0, 75, 0, 0, 0, 0, 0, 0, 0, 0, 0, 0,
    0, 0, 0, 0, 0, 0, 0, 0, 0, 0, 0, 0, 0, 0, 0, 76, 0, 77, 0, 78, 0, 79, 28, 0, 0, 0, 0, 0, 0, 0,
    29, 0, 0, 0, 0, 0, 0, 0, 30, 31, 32, 33, 34, 35, 36, 37, 0, 0, 0, 0, 0, 0, 38, 0, 39, 0, 40, 6,
    82, 1, 110, 136, 126, 87, 0, 88, 128, 41, 0, 0, 0, 42, 137, 4, 98, 99, 103, 105, 135, 89, 129,
    8, 139, 84, 116, 114, 101, 102, 115, 108, 121, 141, 123, 100, 104, 106,
];

/// Returns the index of the instruction table by opcodes, as two lists. The first has a base for
/// each first opcode. The second has a row's number at the base plus its second opcode.
pub fn index_by_opcodes() -> (&'static [u16; 256], &'static [u8; PLACE_COUNT])
    ensures bases { length result.0.now ≡ 256 }
    ensures places { length result.1.now ≡ PLACE_COUNT }
    ensures all { IndexesRowsByOpcodes result.0.now result.1.now }
    ensures within { list_all (λ n. nat_lt n ROW_COUNT) result.1.now ≡ true }
{
    (&BASES, &PLACES)
}

// For each row: whether it has all fields of its form.
static PLAIN: [bool; ROW_COUNT] = [
    true, // addi Dc, Ds1, sk
    true, // addih Dc, Ds1, uk
    true, // addih.a Ac, As1, uk
    false, // mov Dc, sk
    false, // mov.u Dc, uk
    false, // movh Dc, uk
    false, // movh.a Ac, uk
    false, // mfcr Dc, uk
    false, // mtcr uk, Ds1
    false, // add Dc, Ds1, Ds2
    false, // sub Dc, Ds1, Ds2
    false, // eq Dc, Ds1, Ds2
    false, // ne Dc, Ds1, Ds2
    false, // lt Dc, Ds1, Ds2
    false, // lt.u Dc, Ds1, Ds2
    false, // ge Dc, Ds1, Ds2
    false, // ge.u Dc, Ds1, Ds2
    false, // mov Dc, Ds2
    false, // sh Dc, Ds1, Ds2
    false, // sha Dc, Ds1, Ds2
    false, // and Dc, Ds1, Ds2
    false, // nand Dc, Ds1, Ds2
    false, // or Dc, Ds1, Ds2
    false, // nor Dc, Ds1, Ds2
    false, // xor Dc, Ds1, Ds2
    false, // xnor Dc, Ds1, Ds2
    false, // andn Dc, Ds1, Ds2
    false, // orn Dc, Ds1, Ds2
    true, // add Dc, Ds1, sk
    true, // rsub Dc, Ds1, sk
    true, // eq Dc, Ds1, sk
    true, // ne Dc, Ds1, sk
    true, // lt Dc, Ds1, sk
    true, // lt.u Dc, Ds1, uk
    true, // ge Dc, Ds1, sk
    true, // ge.u Dc, Ds1, uk
    true, // sh Dc, Ds1, sk
    true, // sha Dc, Ds1, sk
    true, // and Dc, Ds1, uk
    true, // or Dc, Ds1, uk
    true, // xor Dc, Ds1, uk
    false, // bisr uk
    false, // syscall uk
    false, // mov.aa Ac, As2
    false, // add.a Ac, As1, As2
    false, // sub.a Ac, As1, As2
    false, // mov.d Dc, As2
    true, // addsc.a Ac, As2, Ds1, n
    false, // mov.a Ac, Ds2
    false, // calli As1
    false, // ji As1
    true, // nop
    true, // ret
    true, // rfe
    true, // svlcx
    true, // rslcx
    true, // enable
    true, // disable
    true, // dsync
    true, // isync
    true, // ld.b Ds1, [As2+]sk
    true, // ld.bu Ds1, [As2+]sk
    true, // ld.h Ds1, [As2+]sk
    true, // ld.hu Ds1, [As2+]sk
    true, // ld.w Ds1, [As2+]sk
    true, // ld.a As1, [As2+]sk
    true, // ld.b Ds1, [As2]sk
    true, // ld.bu Ds1, [As2]sk
    true, // ld.h Ds1, [As2]sk
    true, // ld.hu Ds1, [As2]sk
    true, // ld.w Ds1, [As2]sk
    true, // ld.a As1, [As2]sk
    true, // st.b [As2+]sk, Ds1
    true, // st.h [As2+]sk, Ds1
    true, // st.w [As2+]sk, Ds1
    true, // st.a [As2+]sk, As1
    true, // st.b [As2]sk, Ds1
    true, // st.h [As2]sk, Ds1
    true, // st.w [As2]sk, Ds1
    true, // st.a [As2]sk, As1
    true, // lea As1, [As2]sk
    true, // ld.w.l Ds1, [As2]sk
    true, // ld.a.l As1, [As2]sk
    true, // st.w.l [As2]sk, Ds1
    true, // lea.l As1, [As2]sk
    true, // ld.w Ds1, U
    true, // ld.a As1, U
    true, // st.w U, Ds1
    true, // st.a U, As1
    true, // lea As1, U
    true, // jeq Ds1, Ds2, T
    true, // jne Ds1, Ds2, T
    true, // jlt Ds1, Ds2, T
    true, // jlt.u Ds1, Ds2, T
    true, // jge Ds1, Ds2, T
    true, // jge.u Ds1, Ds2, T
    true, // jeq.a As1, As2, T
    true, // jne.a As1, As2, T
    false, // jz.a As1, T
    false, // jnz.a As1, T
    false, // loop As2, T
    true, // jeq Ds1, sk4, T
    true, // jne Ds1, sk4, T
    true, // jlt Ds1, sk4, T
    true, // jge Ds1, sk4, T
    true, // jlt.u Ds1, uk4, T
    true, // jge.u Ds1, uk4, T
    true, // call T
    true, // calla U
    true, // j T
    true, // ja U
    false, // nop16
    false, // rfe16
    false, // ret16
    true, // ji16 As1
    true, // bisr16 uk
    true, // mov16.d15 uk
    true, // sub16.a a10, uk
    true, // call16 T
    true, // j16 T
    true, // jz16.d15 T
    true, // jnz16.d15 T
    true, // jz16 Ds2, T
    true, // jnz16 Ds2, T
    true, // mov16 Ds1, Ds2
    true, // add16 Ds1, Ds2
    true, // sub16 Ds1, Ds2
    true, // and16 Ds1, Ds2
    true, // or16 Ds1, Ds2
    true, // xor16 Ds1, Ds2
    true, // mov16.aa As1, As2
    true, // mov16.a As1, Ds2
    true, // mov16.d Ds1, As2
    true, // add16.a As1, As2
    true, // mov16 Ds1, sk
    true, // add16 Ds1, sk
    true, // mov16.a As1, uk
    true, // add16.a As1, sk
    true, // ld16.w Ds1, [As2]
    true, // ld16.a As1, [As2]
    true, // st16.w [As2], Ds1
    true, // st16.a [As2], As1
];

/// Returns for each row of the instruction table, in order, whether its instructions use all fields
/// of their form.
#[tactic(auto, unfolding(tc_isa::specs::Forms::field_bounds))]
pub fn has_all_fields_by_row() -> &'static [bool; ROW_COUNT]
    ensures { result.now ≡ map has_all_fields table_rows }
{
    &PLAIN
}

/// Returns the number of the table row with these two operation codes. If no row has them, the
/// answer is any number or `None`.
pub(crate) fn row_number_by_opcodes(first: u8, second: u8) -> Option<u8>
    ensures within { IfSome result (λ p. p < ROW_COUNT) }
    ensures only { (place : ℕ) (r : RowData) → slice_get table_rows place ≡ Some r → r.op1 ≡ first
        → r.op2 ≡ second → result ≡ Some place }
{
    let (bases, places) = index_by_opcodes();
    let at = usize::from(bases[usize::from(first)]) + usize::from(second);
    if at < places.len() {
        Some(places[at])
    } else {
        None
    }
}

/// Returns the format of instructions with this first byte, or any format if there are none.
pub(crate) fn form_of_first_byte(first: u8) -> Form
    ensures { (place : ℕ) (r : RowData) → slice_get table_rows place ≡ Some r → r.op1 ≡ first
        → form_index r.form ≡ form_index result }
{
    let (starts, _) = index_by_first_byte();
    rows()[usize::from(starts[usize::from(first)])].form
}
