// Fetches and decodes the instruction at pc.
ghost use Rattle.std.specs.Prelude.{◌≡◌, ◌<◌, ◌≤◌, IfOk};
ghost use Rattle.tcd_base.specs.Bytes.{bytes_of_word};
ghost use Rattle.tc_isa.specs.InBounds.{IsShapeInBounds};
ghost use Rattle.tc_encode.specs.Decoding.{decoded_of};
ghost use Rattle.tc_machine.specs.Fetching.{mapped_bytes, fetch_failure_cause, fetched_instruction, shape_at_pc};

use crate::operand_addresses::wrapping_sum;
use crate::{Cause, Machine};
use tc_encode::{DecodeErr, decode};
use tc_isa::{Inst, Shape, shape};
use tc_mem::Mem;

/// Decodes the instruction at an address from at most four mapped bytes. Returns the instruction
/// and its length in bytes, or why the bytes begin with none.
fn decode_at_address(mem: &Mem, addr: u32) -> Result<(Inst, usize), DecodeErr>
    ensures decoded { result ≡ decoded_of (mapped_bytes 4 mem.now addr) }
    ensures small { IfOk result (λ found. found.1 ≤ 4) }
{
    match mem.word(addr) {
        Some(word) => decode_fetched_bytes(&fetched_word_bytes(word)),
        None => decode_at_address_by_bytes(mem, addr),
    }
}

/// Returns why a machine dies if bytes at pc don't decode: `NoCode` if they are the beginning of an
/// instruction, else `NotListed`.
fn fetch_failure_cause(e: DecodeErr) -> Cause
    ensures { result ≡ fetch_failure_cause e }
{
    match e {
        DecodeErr::Short => Cause::NoCode,
        DecodeErr::NotListed => Cause::NotListed,
    }
}

/// Returns the instruction that the fetched bytes begin with, and its length in bytes; or why they
/// begin with none.
fn decode_fetched_bytes(bytes: &[u8]) -> Result<(Inst, usize), DecodeErr>
    ensures decoded { result ≡ decoded_of bytes.now }
    ensures small { IfOk result (λ found. found.1 ≤ 4) }
{
    decode(bytes)
}

/// Returns the bytes of a word, the lowest first.
fn fetched_word_bytes(word: u32) -> [u8; 4]
    ensures { result ≡ bytes_of_word word }
{
    word.to_le_bytes()
}

/// Decodes the instruction at an address as `decode_at_address` does, from at most four mapped
/// bytes that are read one by one.
#[tactic(auto, unfolding(crate::specs::Fetching::mapped_bytes))]
fn decode_at_address_by_bytes(mem: &Mem, addr: u32) -> Result<(Inst, usize), DecodeErr>
    ensures decoded { result ≡ decoded_of (mapped_bytes 4 mem.now addr) }
    ensures small { IfOk result (λ found. found.1 ≤ 4) }
{
    let Some(a) = mem.get(addr) else {
        return decode_fetched_bytes(&[]);
    };
    let second = wrapping_sum(addr, 1);
    let Some(b) = mem.get(second) else {
        return decode_fetched_bytes(&[a]);
    };
    let third = wrapping_sum(second, 1);
    let Some(c) = mem.get(third) else {
        return decode_fetched_bytes(&[a, b]);
    };
    let Some(d) = mem.get(wrapping_sum(third, 1)) else {
        return decode_fetched_bytes(&[a, b, c]);
    };
    decode_fetched_bytes(&[a, b, c, d])
}

impl Machine {
    /// Decodes the bytes at pc, odd or even. Returns what the instruction does and its length in
    /// bytes, or why the machine dies if none is decoded.
    pub fn shape_at_pc(&self) -> Result<(Shape, u32), Cause>
        ensures shape { result ≡ shape_at_pc self.now }
        ensures bounded { IfOk result (λ found. IsShapeInBounds found.0) }
    {
        match decode_at_address(&self.mem, self.pc) {
            Ok((inst, n)) => Ok((shape(&inst), n as u32)),
            Err(e) => Err(fetch_failure_cause(e)),
        }
    }

    /// Returns the result `found` of decoding the instruction at pc, or the cause of death `NoCode`
    /// if pc is odd, which decoding ignores.
    #[tactic(auto, unfolding(crate::specs::Fetching::fetched_instruction))]
    pub(crate) fn fetch(&self, found: Result<(Shape, u32), Cause>) -> Result<(Shape, u32), Cause>
        requires found { found ≡ shape_at_pc self.now }
        requires bounded { IfOk found (λ it. IsShapeInBounds it.0) }
        ensures shape { result ≡ fetched_instruction self.now }
        ensures bounded { IfOk result (λ it. IsShapeInBounds it.0) }
    {
        if self.pc % 2 == 0 {
            found
        } else {
            Err(Cause::NoCode)
        }
    }
}
