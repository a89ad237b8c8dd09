// An instruction, whose fields always fit its row.
use std::marker::Model;

/// An instruction: the number of its row, and the raw fields of its operands. A field that the row
/// doesn't have is 0.
#[derive(Clone, Copy, PartialEq, Eq)]
pub struct Inst {
    pub row: u8,
    pub c: u8,
    pub s1: u8,
    pub s2: u8,
    pub n: u8,
    pub k: u32,
}

impl Model for Inst {
    ghost use Rattle.tc_isa.specs.Insts.{InstData, IsInst};

    ghost Value = { InstData };

    ghost view = { λ i. record { row = i.row; c = i.c; s1 = i.s1; s2 = i.s2; n = i.n; k = i.k } };

    ghost invariant = { λ i. IsInst (record { row = i.row; c = i.c; s1 = i.s1; s2 = i.s2; n = i.n; k = i.k }) };

    ghost inverse = { λ d. record { row = d.row; c = d.c; s1 = d.s1; s2 = d.s2; n = d.n; k = d.k } };
}
