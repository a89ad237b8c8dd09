// What an instruction does, from the meaning of its row.
ghost use Rattle.std.specs.Prelude.{◌≡◌, map};
ghost use Rattle.tc_isa.specs.Insts.{InstData, IsInst};
ghost use Rattle.tc_isa.specs.Rows.{table_rows};
ghost use Rattle.tc_isa.specs.Meanings.{shape_of, meanings};
ghost use Rattle.tc_isa.specs.InBounds.{IsShapeInBounds, FieldsFitTheirBits};
ghost use Rattle.tc_isa.specs.FromFields.{register_from_fields, operand_from_fields, distance_from_fields, target_from_fields, shape_from_fields, constant_from_fields};

use crate::meaning::{Destination, Displacement, Immediate, Meaning, Operand, RegField};
use crate::row_meanings::row_meanings;
use crate::{Arg, Fields, Inst, Shape, Target};
use tcd_base::sext;

/// Returns what the instruction does: the meaning of its row of the table, with its fields filled
/// in.
pub fn shape(inst: &Inst) -> Shape
    ensures shape { result ≡ shape_of inst.now }
    ensures bounded { IsShapeInBounds result }
{
    let fields = Fields {
        c: inst.c,
        s1: inst.s1,
        s2: inst.s2,
        n: inst.n,
        k: inst.k,
    };
    shape_from_fields(&row_meanings()[usize::from(inst.row)], &fields)
}

/// Laws of what instructions do: registers are below 32, words below 2^32, sizes 1, 2 or 4. The
/// table of meanings has the names of the instruction table's rows, in their order.
pub fn shape_laws()
    ensures bounded { (i : InstData) → IsInst i → IsShapeInBounds (shape_of i) }
    ensures names { map (λ l. l.name) meanings ≡ map (λ r. r.name) table_rows }
{}

/// Returns the word of an instruction's constant. `constant` says which of the fields `f` has the
/// constant, and how it is extended or shifted.
pub(crate) fn constant_from_fields(constant: Immediate, f: &Fields) -> u32
    ensures { result ≡ constant_from_fields constant f.now }
{
    match constant {
        Immediate::Zero => 0,
        Immediate::Signed4 => sext(f.k % 16, 4),
        Immediate::Signed9 => sext(f.k % 512, 9),
        Immediate::Signed10 => sext(f.k % 1024, 10),
        Immediate::Signed16 => sext(f.k % 65536, 16),
        Immediate::Unsigned => f.k,
        Immediate::High => f.k.wrapping_mul(65536),
        Immediate::Address => f.k / 16384 % 16 * 268_435_456 + f.k % 16384,
        Immediate::SignedS2 => sext(u32::from(f.s2 % 16), 4),
        Immediate::UnsignedS2 => u32::from(f.s2),
    }
}

/// Returns what an instruction does, from its row's `meaning` and its operand fields `f`.
fn shape_from_fields(meaning: &Meaning, f: &Fields) -> Shape
    requires { FieldsFitTheirBits f.now }
    ensures { result ≡ shape_from_fields meaning.now f.now }
{
    match *meaning {
        Meaning::Computes(op, dst, x, y) => Shape::Compute {
            op,
            dst: register_from_fields(dst, f),
            x: operand_from_fields(x, f),
            y: operand_from_fields(y, f),
        },
        Meaning::Scales(dst, base, index) => Shape::Scaled {
            dst: register_from_fields(dst, f),
            base: register_from_fields(base, f),
            index: register_from_fields(index, f),
            n: f.n,
        },
        Meaning::Loads(dst, base, offset, size, signed, after) => Shape::Load {
            dst: register_from_fields(dst, f),
            base: operand_from_fields(base, f),
            offset: constant_from_fields(offset, f),
            size,
            signed,
            after,
        },
        Meaning::Stores(src, base, offset, size, after) => Shape::Store {
            src: register_from_fields(src, f),
            base: operand_from_fields(base, f),
            offset: constant_from_fields(offset, f),
            size,
            after,
        },
        Meaning::Branches(cond, x, y, by, lowers) => Shape::Branch {
            cond,
            x: register_from_fields(x, f),
            y: operand_from_fields(y, f),
            by: distance_from_fields(by, f),
            lowers,
        },
        Meaning::Jumps(to) => Shape::Jump {
            to: target_from_fields(to, f),
        },
        Meaning::Calls(to) => Shape::Call {
            to: target_from_fields(to, f),
        },
        Meaning::Masks => Shape::Bisr {
            c: (f.k % 256) as u8,
        },
        Meaning::Traps => Shape::Syscall {
            tin: (f.k % 256) as u8,
        },
        Meaning::ReadsCore(dst) => Shape::Mfcr {
            dst: register_from_fields(dst, f),
            number: (f.k % 65536) as u16,
        },
        Meaning::WritesCore(src) => Shape::Mtcr {
            src: register_from_fields(src, f),
            number: (f.k % 65536) as u16,
        },
        Meaning::Always(shape) => shape,
    }
}

/// Returns the number of an instruction's register: 0 to 15 for D0 to D15, 16 to 31 for A0 to A15.
/// `place` says which field of `f` names the register, or that the register is fixed.
fn register_from_fields(place: RegField, f: &Fields) -> u8
    requires { FieldsFitTheirBits f.now }
    ensures { result ≡ register_from_fields place f.now }
{
    match place {
        RegField::Dc => f.c,
        RegField::Ds1 => f.s1,
        RegField::Ds2 => f.s2,
        RegField::D15 => 15,
        RegField::Ac => 16 + f.c,
        RegField::As1 => 16 + f.s1,
        RegField::As2 => 16 + f.s2,
        RegField::A10 => 26,
    }
}

/// Returns an operand of an instruction, from its fields `f`: the number of a register, or the word
/// of a constant.
fn operand_from_fields(operand: Operand, f: &Fields) -> Arg
    requires { FieldsFitTheirBits f.now }
    ensures { result ≡ operand_from_fields operand f.now }
{
    match operand {
        Operand::At(place) => Arg::Reg(register_from_fields(place, f)),
        Operand::Of(word) => Arg::Word(constant_from_fields(word, f)),
    }
}

/// Returns the distance in bytes of a jump or a branch, modulo 2^32: twice its field `k`,
/// sign-extended or not, as `distance` says.
fn distance_from_fields(distance: Displacement, f: &Fields) -> u32
    ensures { result ≡ distance_from_fields distance f.now }
{
    match distance {
        Displacement::Ahead8 => sext(f.k % 256, 8).wrapping_mul(2),
        Displacement::Ahead15 => sext(f.k % 32768, 15).wrapping_mul(2),
        Displacement::Ahead24 => sext(f.k % 16_777_216, 24).wrapping_mul(2),
        Displacement::AheadOnly => f.k.wrapping_mul(2),
    }
}

/// Returns the target of a jump or a call, from its fields `f`: a distance, an absolute address or
/// a register, as `goal` says.
fn target_from_fields(goal: Destination, f: &Fields) -> Target
    requires { FieldsFitTheirBits f.now }
    ensures { result ≡ target_from_fields goal f.now }
{
    match goal {
        Destination::By(by) => Target::Rel(distance_from_fields(by, f)),
        Destination::Code => Target::Abs(f.k / 1_048_576 % 16 * 268_435_456 + f.k % 1_048_576 * 2),
        Destination::In(place) => Target::Reg(register_from_fields(place, f)),
    }
}
