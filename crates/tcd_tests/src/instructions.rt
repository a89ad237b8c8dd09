//! Worked values of the arithmetic, and what worked instructions do.
use crate::asserts::{is_so, same};
use tc_encode::{Code, DecodeErr, decode, encode};
use tc_isa::{Arg, Cond, Op, Shape, Target, alu, inst, shape, taken, writes};

// An operation, two words, and its result.
static RESULTS: [(Op, u32, u32, u32); 30] = [
    (Op::Second, 1, 7, 7),
    (Op::Add, 0xffff_ffff, 2, 1),
    (Op::Sub, 1, 2, 0xffff_ffff),
    (Op::And, 0x0f0f_0f0f, 0x00ff_00ff, 0x000f_000f),
    (Op::Nand, 0x0f0f_0f0f, 0x00ff_00ff, 0xfff0_fff0),
    (Op::Or, 0x0f0f_0f0f, 0x00ff_00ff, 0x0fff_0fff),
    (Op::Nor, 0x0f0f_0f0f, 0x00ff_00ff, 0xf000_f000),
    (Op::Xor, 0x0f0f_0f0f, 0x00ff_00ff, 0x0ff0_0ff0),
    (Op::Xnor, 0x0f0f_0f0f, 0x00ff_00ff, 0xf00f_f00f),
    (Op::Andn, 0x0f0f_0f0f, 0x00ff_00ff, 0x0f00_0f00),
    (Op::Orn, 0x0f0f_0f0f, 0x00ff_00ff, 0xff0f_ff0f),
    (Op::Eq, 5, 5, 1),
    (Op::Ne, 5, 5, 0),
    (Op::Lt, 0xffff_ffff, 0, 1),
    (Op::LtU, 0xffff_ffff, 0, 0),
    (Op::Ge, 0x8000_0000, 0x7fff_ffff, 0),
    (Op::GeU, 0x8000_0000, 0x7fff_ffff, 1),
    (Op::Sh, 0x8000_0001, 0, 0x8000_0001),
    (Op::Sh, 3, 31, 0x8000_0000),
    (Op::Sh, 0x8000_0001, 63, 0x4000_0000),
    (Op::Sh, 0xffff_ffff, 32, 0),
    (Op::Sh, 0xffff_ffff, 33, 1),
    (Op::Sh, 1, 64, 1),
    (Op::Sh, 1, 0xffff_fff0, 0),
    (Op::Sha, 3, 31, 0x8000_0000),
    (Op::Sha, 0x8000_0000, 63, 0xc000_0000),
    (Op::Sha, 0x8000_0000, 32, 0xffff_ffff),
    (Op::Sha, 0x7fff_ffff, 32, 0),
    (Op::Sha, 0x8000_0000, 33, 0xffff_ffff),
    (Op::Sha, 0x4000_0000, 62, 0x1000_0000),
];

#[test]
fn computes_worked_words(rt: HostRuntime) {
    for (op, x, y, result) in &RESULTS {
        same(&rt, &(*op, alu(*op, *x, *y)), &(*op, *result));
    }
    for (cond, holds) in [
        (Cond::Eq, false),
        (Cond::Ne, true),
        (Cond::Lt, true),
        (Cond::LtU, false),
        (Cond::Ge, false),
        (Cond::GeU, true),
    ] {
        same(&rt, &(cond, taken(cond, 0x8000_0000, 1)), &(cond, holds));
    }
}

#[test]
fn shapes_worked_instructions(rt: HostRuntime) {
    // addi d1, d2, -1; ld.w.l d1, [a2]-4; ld.a a2, [a3+]-1; loop a4, .-2; calla 0xa0000004; sub16.a
    // a10, 8.
    for (fields, result, written) in [
        (
            (0, 1, 2, 0, 0, 0xffff),
            Shape::Compute {
                op: Op::Add,
                dst: 1,
                x: Arg::Reg(2),
                y: Arg::Word(0xffff_ffff),
            },
            0x2,
        ),
        (
            (81, 0, 1, 2, 0, 0xfffc),
            Shape::Load {
                dst: 1,
                base: Arg::Reg(18),
                offset: 0xffff_fffc,
                size: 4,
                signed: false,
                after: false,
            },
            0x2,
        ),
        (
            (65, 0, 2, 3, 0, 0x3ff),
            Shape::Load {
                dst: 18,
                base: Arg::Reg(19),
                offset: 0xffff_ffff,
                size: 4,
                signed: false,
                after: true,
            },
            0xc_0000,
        ),
        (
            (100, 0, 0, 4, 0, 0x7fff),
            Shape::Branch {
                cond: Cond::Ne,
                x: 20,
                y: Arg::Word(0),
                by: 0xffff_fffe,
                lowers: true,
            },
            0x10_0000,
        ),
        (
            (108, 0, 0, 0, 0, 0xa0_0002),
            Shape::Call {
                to: Target::Abs(0xa000_0004),
            },
            0,
        ),
        (
            (117, 0, 0, 0, 0, 8),
            Shape::Compute {
                op: Op::Sub,
                dst: 26,
                x: Arg::Reg(26),
                y: Arg::Word(8),
            },
            0x400_0000,
        ),
    ] {
        let (row, c, s1, s2, n, k) = fields;
        let found = inst(row, c, s1, s2, n, k).expect(&rt, "listed");
        is_so(&rt, shape(&found) == result);
        same(&rt, &writes(&found), &written);
    }
    is_so(&rt, inst(65, 0, 2, 2, 0, 0).is_none());
    is_so(&rt, inst(255, 0, 0, 0, 0, 0).is_none());
    is_so(&rt, inst(0, 16, 0, 0, 0, 0).is_none());
    is_so(&rt, inst(0, 0, 0, 1, 0, 0).is_none());
}

#[test]
fn spells_worked_instructions(rt: HostRuntime) {
    // addi d1, d2, -1; ld.w.l d1, [a2]-4; svlcx; rslcx; calli a15; movh.a a15, 32768; bisr16 10.
    for (fields, (b0, b1, b2, b3), len) in [
        ((0, 1, 2, 0, 0xffff), (0x1b, 0xf2, 0xff, 0x1f), 4),
        ((81, 0, 1, 2, 0xfffc), (0x19, 0x21, 0xfc, 0xff), 4),
        ((54, 0, 0, 0, 0), (0x0d, 0x00, 0x00, 0x02), 4),
        ((55, 0, 0, 0, 0), (0x0d, 0x00, 0x40, 0x02), 4),
        ((49, 0, 15, 0, 0), (0x2d, 0x0f, 0x00, 0x00), 4),
        ((6, 15, 0, 0, 0x8000), (0x91, 0x00, 0x00, 0xf8), 4),
        ((115, 0, 0, 0, 10), (0xe0, 0x0a, 0x00, 0x00), 2),
    ] {
        let (row, c, s1, s2, k) = fields;
        let listed = inst(row, c, s1, s2, 0, k).expect(&rt, "listed");
        let bytes = [b0, b1, b2, b3];
        is_so(&rt, encode(&listed) == Code { len, bytes });
        is_so(&rt, decode(&bytes) == Ok((listed, usize::from(len))));
    }
}

#[test]
fn refuses_other_bytes(rt: HostRuntime) {
    for bytes in [
        [0x0d, 0x10, 0x00, 0x02],
        [0x09, 0x22, 0x80, 0x01],
        [0x0b, 0x21, 0x04, 0x10],
        [0x01, 0x00, 0x00, 0x64],
        [0x10, 0x00, 0x00, 0x00],
        [0x89, 0x22, 0x80, 0x01],
    ] {
        is_so(&rt, decode(&bytes) == Err(DecodeErr::NotListed));
    }
    let none: [u8; 0] = [];
    is_so(&rt, decode(&none) == Err(DecodeErr::Short));
    is_so(&rt, decode(&[0x6d, 0x00, 0x04]) == Err(DecodeErr::Short));
    is_so(
        &rt,
        decode(&[0x0d, 0x10, 0x00]) == Err(DecodeErr::NotListed),
    );
    is_so(&rt, decode(&[0x10]) == Err(DecodeErr::NotListed));
    is_so(&rt, decode(&[0x00]) == Err(DecodeErr::Short));
}
