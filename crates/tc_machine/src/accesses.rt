// Loads and stores of 1, 2 or 4 bytes. A byte that isn't mapped is read from the event's input.
ghost use Rattle.std.specs.Prelude.{◌≡◌, ◌%◌, ◌^◌, unwrap_or};
ghost use Rattle.std.specs.Bool.{MatchBool};
ghost use Rattle.std.specs.FinMap as map;
ghost use Rattle.tc_isa.specs.InBounds.{IsOneTwoOrFour};
ghost use Rattle.csa_chain.specs.MemoryBytes.{loaded_number, with_bytes, load_result};
ghost use Rattle.tc_machine.specs.Instructions.{is_trapping_access};

use crate::Event;
use crate::operand_addresses::wrapping_sum;
use tc_mem::Mem;
use tcd_base::sext;

/// Returns the word that a load of `size` bytes gives, sign-extended if `signed`, else
/// zero-extended. Each byte that isn't mapped is the byte of `input` at the same offset.
pub(crate) fn extended_loaded_word(mem: &Mem, input: u32, addr: u32, size: u8, signed: bool) -> u32
    requires { IsOneTwoOrFour size }
    ensures { result ≡ load_result signed size (loaded_number mem.now input addr size) }
{
    if size == 4 {
        return load_word_or_input(mem, input, addr);
    }
    let number = if size == 2 {
        u32::from(load_half_or_input(mem, input, addr))
    } else {
        u32::from(load_single_byte(mem, input, addr))
    };
    if signed {
        sext(number, 8 * size)
    } else {
        number
    }
}

/// Stores the low `n` bytes of a word in the machine's memory from an address on; `n` is 1, 2 or 4.
/// Bytes that aren't mapped are dropped.
pub(crate) fn store_low_bytes(mem: &mut Mem, addr: u32, word: u32, n: u8)
    ensures { mem.new ≡ with_bytes mem.old addr word n }
{
    if store_in_block(mem, addr, word, n) {
        return;
    }
    store_byte_by_byte(mem, addr, word, n);
}

/// Returns true if an access of `size` bytes traps: its address is no multiple of `size`, and the
/// event says that such accesses trap.
pub fn is_trapping_access(event: &Event, addr: u32, size: u8) -> bool
    requires { IsOneTwoOrFour size }
    ensures { result ≡ is_trapping_access event.now addr size }
{
    event.aln && addr % u32::from(size) != 0
}

/// Returns the word that a load reads at an address, with the input's byte for each byte that isn't
/// mapped.
fn load_word_or_input(mem: &Mem, input: u32, addr: u32) -> u32
    ensures { result ≡ loaded_number mem.now input addr 4 }
{
    match mem.word(addr) {
        Some(word) => word,
        None => load_word_by_bytes(mem, input, addr),
    }
}

/// Returns the halfword that a load reads at an address, with the input's byte for each byte that
/// isn't mapped.
fn load_half_or_input(mem: &Mem, input: u32, addr: u32) -> u16
    ensures { result ≡ loaded_number mem.now input addr 2 }
{
    match mem.half(addr) {
        Some(half) => half,
        None => load_half_by_bytes(mem, input, addr),
    }
}

/// Returns the byte that a load of one byte reads at an address: the input's lowest byte if none is
/// mapped.
#[tactic(auto, unfolding(csa_chain::specs::MemoryBytes::loaded_number))]
fn load_single_byte(mem: &Mem, input: u32, addr: u32) -> u8
    ensures { result ≡ loaded_number mem.now input addr 1 }
{
    load_byte_or_input(mem, input, addr)
}

/// Returns the word of a load, read byte by byte: each byte from memory, or from the input if it
/// isn't mapped.
#[tactic(auto, unfolding(csa_chain::specs::MemoryBytes::loaded_number))]
fn load_word_by_bytes(mem: &Mem, input: u32, addr: u32) -> u32
    ensures { result ≡ loaded_number mem.now input addr 4 }
{
    let low = load_byte_or_input(mem, input, addr);
    let second = load_byte_or_input(mem, input / 256, wrapping_sum(addr, 1));
    let high = load_half_by_bytes(
        mem,
        input / 256 / 256,
        wrapping_sum(wrapping_sum(addr, 1), 1),
    );
    u32::from(low) + 256 * (u32::from(second) + 256 * u32::from(high))
}

/// Returns the byte that a load reads at an address: the input's low byte if none is mapped.
fn load_byte_or_input(mem: &Mem, input: u32, addr: u32) -> u8
    ensures { result ≡ unwrap_or (map.get mem.now addr) (input % 2 ^ 8) }
{
    mem.get(addr).unwrap_or((input % 256) as u8)
}

/// Returns the halfword of a load, read byte by byte: each byte from memory, or from the input if
/// it isn't mapped.
#[tactic(auto, unfolding(csa_chain::specs::MemoryBytes::loaded_number))]
fn load_half_by_bytes(mem: &Mem, input: u32, addr: u32) -> u16
    ensures { result ≡ loaded_number mem.now input addr 2 }
{
    let low = load_byte_or_input(mem, input, addr);
    let high = load_byte_or_input(mem, input / 256, wrapping_sum(addr, 1));
    u16::from(low) + 256 * u16::from(high)
}

/// Stores the low `n` bytes of a word at once, if `n` is 4 or 2 and all are mapped and in one block
/// of 64 bytes. Returns false if nothing was stored.
fn store_in_block(mem: &mut Mem, addr: u32, word: u32, n: u8) -> bool
    ensures { MatchBool result (mem.new ≡ with_bytes mem.old addr word n) (mem.new ≡ mem.old) }
{
    match n {
        4 => mem.set_word(addr, word),
        2 => mem.set_half(addr, (word % 0x1_0000) as u16),
        _ => false,
    }
}

/// Stores the low `n` bytes of a word byte by byte. Bytes that aren't mapped are dropped.
#[tactic(auto, unfolding(csa_chain::specs::MemoryBytes::with_bytes))]
fn store_byte_by_byte(mem: &mut Mem, addr: u32, word: u32, n: u8)
    ensures { mem.new ≡ with_bytes mem.old addr word n }
{
    if n > 0 {
        mem.set(addr, (word % 256) as u8);
        store_byte_by_byte(mem, wrapping_sum(addr, 1), word / 256, n - 1);
    }
}
