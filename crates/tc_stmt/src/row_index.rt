// An index of the rows by a key of their names, so that a search skips most rows, and the first row
// of a name. The tables are printed by tools/rows.py.
ghost use Rattle.std.specs.Prelude.{◌≡◌, ◌<◌, ◌+◌, ◌-◌, ◌==◌, List, map, length, drop, true, slice_index, find, option_map};
ghost use Rattle.tc_isa.specs.Rows.{RowData, row_of, table_rows};
ghost use Rattle.tc_stmt.specs.RowIndex.{name_key, row_of_name, are_first_without_key, IsFirstRowIndex, IsNextRowIndex};
ghost use Rattle.std.specs.Str.{bytes_eq};

use tc_isa::{ROW_COUNT, Row, rows};

// The number of the first row with each key, and the number of rows if no row has the key.
static FIRST: [u8; 256] = [
    142, 142, 142, 142, 142, 142, 16, 142, 142, 125, 142, 133, 95, 142, 142, 142, 142, 142, 142,
    142, 142, 142, 45, 64, 142, 81, 97, 142, 142, 127, 142, 142, 142, 142, 142, 142, 142, 142, 142,
    29, 142, 14, 142, 126, 42, 117, 110, 142, 90, 142, 142, 15, 27, 142, 142, 142, 142, 142, 12,
    142, 142, 142, 50, 51, 83, 142, 142, 142, 142, 18, 142, 142, 142, 11, 142, 142, 142, 5, 142, 6,
    142, 23, 142, 52, 142, 22, 13, 142, 142, 92, 142, 24, 142, 25, 56, 142, 142, 41, 142, 115, 142,
    142, 142, 142, 142, 142, 142, 109, 142, 138, 142, 142, 142, 142, 142, 114, 3, 142, 142, 142,
    142, 142, 142, 142, 142, 65, 142, 82, 142, 142, 142, 142, 60, 61, 142, 142, 142, 142, 128, 142,
    142, 142, 142, 142, 0, 1, 58, 2, 140, 122, 142, 59, 111, 120, 142, 142, 142, 93, 142, 142, 142,
    142, 80, 142, 75, 142, 142, 98, 142, 142, 142, 72, 113, 142, 62, 19, 9, 142, 142, 142, 129,
    119, 142, 142, 4, 43, 142, 142, 142, 142, 142, 142, 142, 142, 142, 142, 20, 142, 142, 26, 94,
    142, 142, 142, 142, 124, 21, 131, 130, 116, 10, 142, 142, 73, 7, 99, 142, 47, 142, 142, 142,
    142, 55, 142, 142, 142, 142, 142, 142, 54, 84, 142, 142, 107, 49, 118, 123, 142, 142, 57, 121,
    142, 8, 142, 44, 142, 142, 142, 142, 142, 142, 142, 142, 142, 142, 142,
];

// For each row, the number of the next row with the same key, and the number of rows if there is
// none.
static NEXT: [u8; ROW_COUNT] = [
    142, // addi Dc, Ds1, sk
    142, // addih Dc, Ds1, uk
    142, // addih.a Ac, As1, uk
    17, // mov Dc, sk
    46, // mov.u Dc, uk
    142, // movh Dc, uk
    142, // movh.a Ac, uk
    91, // mfcr Dc, uk
    142, // mtcr uk, Ds1
    28, // add Dc, Ds1, Ds2
    142, // sub Dc, Ds1, Ds2
    30, // eq Dc, Ds1, Ds2
    31, // ne Dc, Ds1, Ds2
    32, // lt Dc, Ds1, Ds2
    33, // lt.u Dc, Ds1, Ds2
    34, // ge Dc, Ds1, Ds2
    35, // ge.u Dc, Ds1, Ds2
    96, // mov Dc, Ds2
    36, // sh Dc, Ds1, Ds2
    37, // sha Dc, Ds1, Ds2
    38, // and Dc, Ds1, Ds2
    53, // nand Dc, Ds1, Ds2
    39, // or Dc, Ds1, Ds2
    142, // nor Dc, Ds1, Ds2
    40, // xor Dc, Ds1, Ds2
    142, // xnor Dc, Ds1, Ds2
    142, // andn Dc, Ds1, Ds2
    142, // orn Dc, Ds1, Ds2
    142, // add Dc, Ds1, sk
    112, // rsub Dc, Ds1, sk
    142, // eq Dc, Ds1, sk
    142, // ne Dc, Ds1, sk
    142, // lt Dc, Ds1, sk
    142, // lt.u Dc, Ds1, uk
    142, // ge Dc, Ds1, sk
    142, // ge.u Dc, Ds1, uk
    100, // sh Dc, Ds1, sk
    63, // sha Dc, Ds1, sk
    142, // and Dc, Ds1, uk
    142, // or Dc, Ds1, uk
    142, // xor Dc, Ds1, uk
    142, // bisr uk
    142, // syscall uk
    142, // mov.aa Ac, As2
    142, // add.a Ac, As1, As2
    142, // sub.a Ac, As1, As2
    48, // mov.d Dc, As2
    142, // addsc.a Ac, As2, Ds1, n
    142, // mov.a Ac, Ds2
    108, // calli As1
    74, // ji As1
    142, // nop
    142, // ret
    142, // rfe
    142, // svlcx
    142, // rslcx
    142, // enable
    142, // disable
    142, // dsync
    142, // isync
    66, // ld.b Ds1, [As2+]sk
    67, // ld.bu Ds1, [As2+]sk
    68, // ld.h Ds1, [As2+]sk
    69, // ld.hu Ds1, [As2+]sk
    70, // ld.w Ds1, [As2+]sk
    71, // ld.a As1, [As2+]sk
    142, // ld.b Ds1, [As2]sk
    142, // ld.bu Ds1, [As2]sk
    142, // ld.h Ds1, [As2]sk
    142, // ld.hu Ds1, [As2]sk
    85, // ld.w Ds1, [As2]sk
    86, // ld.a As1, [As2]sk
    76, // st.b [As2+]sk, Ds1
    77, // st.h [As2+]sk, Ds1
    78, // st.w [As2+]sk, Ds1
    79, // st.a [As2+]sk, As1
    142, // st.b [As2]sk, Ds1
    142, // st.h [As2]sk, Ds1
    87, // st.w [As2]sk, Ds1
    88, // st.a [As2]sk, As1
    89, // lea As1, [As2]sk
    142, // ld.w.l Ds1, [As2]sk
    142, // ld.a.l As1, [As2]sk
    142, // st.w.l [As2]sk, Ds1
    142, // lea.l As1, [As2]sk
    142, // ld.w Ds1, U
    142, // ld.a As1, U
    142, // st.w U, Ds1
    142, // st.a U, As1
    142, // lea As1, U
    101, // jeq Ds1, Ds2, T
    102, // jne Ds1, Ds2, T
    103, // jlt Ds1, Ds2, T
    105, // jlt.u Ds1, Ds2, T
    104, // jge Ds1, Ds2, T
    106, // jge.u Ds1, Ds2, T
    142, // jeq.a As1, As2, T
    142, // jne.a As1, As2, T
    142, // jz.a As1, T
    142, // jnz.a As1, T
    142, // loop As2, T
    142, // jeq Ds1, sk4, T
    142, // jne Ds1, sk4, T
    142, // jlt Ds1, sk4, T
    142, // jge Ds1, sk4, T
    142, // jlt.u Ds1, uk4, T
    142, // jge.u Ds1, uk4, T
    142, // call T
    142, // calla U
    142, // j T
    142, // ja U
    142, // nop16
    142, // rfe16
    142, // ret16
    142, // ji16 As1
    142, // bisr16 uk
    142, // mov16.d15 uk
    142, // sub16.a a10, uk
    142, // call16 T
    142, // j16 T
    142, // jz16.d15 T
    142, // jnz16.d15 T
    142, // jz16 Ds2, T
    142, // jnz16 Ds2, T
    134, // mov16 Ds1, Ds2
    135, // add16 Ds1, Ds2
    142, // sub16 Ds1, Ds2
    142, // and16 Ds1, Ds2
    142, // or16 Ds1, Ds2
    142, // xor16 Ds1, Ds2
    142, // mov16.aa As1, As2
    132, // mov16.a As1, Ds2
    136, // mov16.d Ds1, As2
    137, // add16.a As1, As2
    142, // mov16 Ds1, sk
    142, // add16 Ds1, sk
    142, // mov16.a As1, uk
    142, // add16.a As1, sk
    139, // ld16.w Ds1, [As2]
    142, // ld16.a As1, [As2]
    141, // st16.w [As2], Ds1
    142, // st16.a [As2], As1
];

/// Returns the number of the first instruction table row for each key, a hash of names. Without
/// such a row, the entry is the number of rows.
#[tactic(auto, unfolding(crate::specs::RowIndex::name_key))]
pub(crate) fn first_rows_by_key() -> &'static [u8]
    ensures { IsFirstRowIndex table_rows result.now }
{
    &FIRST
}

/// Returns for each row of the instruction table the number of the next row whose name has the same
/// key, a hash. Without such a row, the entry is the number of rows.
#[tactic(auto, unfolding(crate::specs::RowIndex::name_key))]
pub(crate) fn next_rows_by_key() -> &'static [u8]
    ensures { IsNextRowIndex table_rows result.now }
{
    &NEXT
}

/// Returns the number of the first row of the instruction table that may have this name: no earlier
/// name has the same key, a hash. `first` is the index by keys.
pub(crate) fn first_row_to_try(first: &[u8], name: &[u8]) -> usize
    ensures { (rows : List RowData) → IsFirstRowIndex rows first.now
        → are_first_without_key result (name_key name.now) rows ≡ true }
{
    let key = name_key(name);
    if key < first.len() {
        usize::from(first[key])
    } else {
        0
    }
}

/// Returns the number of the next row after row `i` that may have this name: no name between has
/// the same key, a hash. `next` is the index by keys.
pub(crate) fn next_row_to_try(rows: &[Row], next: &[u8], i: usize, name: &[u8]) -> usize
    requires place { i < length rows.now }
    requires next { IsNextRowIndex (map row_of rows.now) next.now }
    ensures later { i < result }
    ensures none { are_first_without_key (result - (i + 1)) (name_key name.now)
        (drop (i + 1) (map row_of rows.now)) ≡ true }
{
    if i < next.len() && has_same_name_key(&rows[i], name) {
        usize::from(next[i])
    } else {
        i + 1
    }
}

/// The first of these rows that has this name, or `None` if there is none.
pub(crate) fn find_row_by_name<'a>(rows: &'a [Row], name: &[u8]) -> Option<&'a Row>
    ensures { option_map (λ r. r.now) result ≡ find (λ r. bytes_eq r.name.now name.now) rows.now }
{
    rows.iter().find(|r| r.name.as_bytes() == name)
}

// The first row of the instruction table with this name, or `None` if no instruction has the name.
pub(crate) fn row_of_name(name: &[u8]) -> Option<&'static Row>
    ensures { option_map (λ r. row_of r.now) result ≡ row_of_name name.now }
{
    find_row_by_name(rows(), name)
}

/// The key of a row's name, a hash below 256: few names share one.
#[tactic(auto, unfolding(crate::specs::RowIndex::name_key))]
fn name_key(name: &[u8]) -> usize
    ensures { result ≡ name_key name.now }
{
    let front = name_byte_at(name, 0) + 2 * name_byte_at(name, 1);
    (front + 9 * name_byte_at(name, 2) + 7 * name_byte_at(name, 3) + name.len()) % 256
}

// The byte of a statement's or a row's name at this place, and 0 after the end.
fn name_byte_at(text: &[u8], i: usize) -> usize
    ensures value { result ≡ slice_index text.now i }
    ensures small { result < 256 }
{
    if i < text.len() {
        usize::from(text[i])
    } else {
        0
    }
}

/// Whether the name of this row of the instruction table has the same key as this name.
fn has_same_name_key(row: &Row, name: &[u8]) -> bool
    ensures { result ≡ (name_key (row_of row.now).name == name_key name.now) }
{
    name_key(row.name.as_bytes()) == name_key(name)
}
