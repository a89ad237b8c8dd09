// Encodes an instruction as bytes.
ghost use Rattle.std.specs.Prelude.{◌≡◌, length, take, drop, All};
ghost use Rattle.tc_isa.specs.Spelling.{Spells, instruction_bytes};

use crate::decoding::instruction_length;
use crate::forms::word_of_fields;
use tc_isa::{Fields, Inst, rows};

/// The bytes of an instruction: the first `len` of the four; the others are 0.
#[derive(Clone, Copy, Debug, PartialEq, Eq)]
pub struct Code {
    pub len: u8,
    pub bytes: [u8; 4],
}

/// Returns the only bytes that spell the instruction. Bytes after its length are 0.
pub fn encode(inst: &Inst) -> Code
    ensures spells { Spells (take result.len result.bytes) inst.now }
    ensures len { result.len ≡ length (instruction_bytes inst.now) }
    ensures rest { All (λ b. b ≡ 0) (drop result.len result.bytes) }
{
    let row = &rows()[usize::from(inst.row)];
    let fields = Fields {
        c: inst.c,
        s1: inst.s1,
        s2: inst.s2,
        n: inst.n,
        k: inst.k,
    };
    let word = word_of_fields(row.form, row.op1, row.op2, &fields);
    Code {
        len: instruction_length(row.op1),
        bytes: word.to_le_bytes(),
    }
}
