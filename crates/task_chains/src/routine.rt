// The bytes of the switch routine and of a view's, and the test that an image has the routine.
ghost use Rattle.std.specs.Prelude.{◌≡◌, ◌≤◌, ◌<◌, ◌+◌, ◌*◌, ◌/◌, ◌%◌, ◌^◌, ◌↔◌, IsTrue, IfNone, IfSome, slice_index, ◌-◌};
ghost use Rattle.std.specs.List.{flat_map};
ghost use Rattle.tcd_base.specs.Bytes.{four_bytes};
ghost use Rattle.task_chains.specs.SwitchRoutine.{switch_routine_of, bytes_of_instructions, switch_routine_bytes, HasRoutineByte, HasRoutine, IsRoutineFault, IsRoutineInstruction, view_routine_of, view_routine_bytes};
ghost use Rattle.tcd_base.specs.Ranges.{IsInOneRange};

use crate::Tasks;
use arrayvec::ArrayVec;
use cfg_recover::are_bytes_in_rom;
use elf_image::Image;
use tc_isa::{adjusted_upper_half, lower_half};
use tcd_plan::Plan;

/// The number of bytes of the routine: 18 instructions of four bytes.
pub(crate) const ROUTINE_BYTES: u32 = 72;

/// Returns the bits of a 16-bit offset, placed as in an instruction word of format BOL: `lea.l`,
/// `ld.w.l` or `st.w.l` of the switch routine.
pub(crate) fn bol_offset_bits(k: u32) -> u32
    requires { k < 2 ^ 16 }
    ensures { result ≡ k / 64 % 16 * 2 ^ 28 + k / 1024 * 2 ^ 22 + k % 64 * 2 ^ 16 }
{
    k / 64 % 16 * 0x1000_0000 + k / 1024 * 0x40_0000 + k % 64 * 0x1_0000
}

/// Returns the 72 bytes of the switch routine's 18 instruction words, the lowest byte of each word
/// first.
pub(crate) fn routine_bytes_of_words(words: &[u32; 18]) -> [u8; 72]
    ensures { result ≡ flat_map four_bytes words.now }
{
    let mut bytes = ArrayVec::new();
    for w in words {
        bytes.try_extend_from_slice(&w.to_le_bytes()).unwrap();
    }
    match bytes.into_inner() {
        Ok(all) => all,
        Err(_) => unreachable!(),
    }
}

/// Returns the 72 bytes of the routine that switches these tasks.
pub(crate) fn switch_routine_bytes(tasks: &Tasks) -> [u8; 72]
    ensures { result ≡ switch_routine_bytes tasks.now }
{
    routine_bytes_of_words(&switch_routine_words(tasks.list.len() as u32, tasks.block))
}

/// Returns the first address at which the image lacks the tasks' switch routine, or None. The
/// routine's 72 bytes are to be inside one rom range, and in segments.
pub fn routine_fault(image: &Image, plan: &Plan, tasks: &Tasks) -> Option<u32>
    ensures none { IfNone result (HasRoutine image.now plan.now tasks.now) }
    ensures some { IfSome result (IsRoutineFault image.now plan.now tasks.now) }
{
    let bytes = switch_routine_bytes(tasks);
    let mut i = 0u32;
    while i < ROUTINE_BYTES {
        if !has_routine_byte(image, plan, tasks, i, bytes[i as usize]) {
            return Some(tasks.switch.wrapping_add(i));
        }
        i += 1;
    }
    None
}

/// Returns whether an address is that of one of the 18 instructions of the tasks' switch routine.
pub(crate) fn is_routine_instruction(tasks: &Tasks, addr: u32) -> bool
    ensures { IsTrue result ↔ IsRoutineInstruction tasks.now addr }
{
    if addr < tasks.switch {
        return false;
    }
    let offset = addr - tasks.switch;
    offset < ROUTINE_BYTES && offset % 4 == 0
}

/// Returns the 72 bytes that replace the switch routine where one task is analysed alone.
pub(crate) fn view_routine_bytes(tasks: &Tasks) -> [u8; 72]
    ensures { result ≡ view_routine_bytes tasks.now }
{
    routine_bytes_of_words(&view_routine_words(tasks.list.len() as u32, tasks.block))
}

/// Returns the 18 instruction words of the switch routine for `n` tasks. The routine's data, a word
/// for each task and the current task's number, is at address `b`.
fn switch_routine_words(n: u32, b: u32) -> [u32; 18]
    requires { n ≤ 7 }
    ensures { flat_map four_bytes result ≡ bytes_of_instructions (switch_routine_of n b) }
{
    let upper = adjusted_upper_half(b);
    let lower = bol_offset_bits(lower_half(b));
    let count = bol_offset_bits(4 * n);
    [
        0x0340_000D, // disable
        0x0200_000D, // svlcx
        0x2000_0091 + upper * 0x1000, // movh.a a2, hi(b)
        0x0000_22D9 + lower, // lea.l a2, [a2]lo(b)
        0x0000_2019 + count, // ld.w.l d0, [a2]4n
        0x3602_2001, // addsc.a a3, a2, d0, 2
        0x1FE0_004D, // mfcr d1, 0xFE00
        0x0000_3159, // st.w.l [a3]0, d1
        0x0000_101B, // addi d0, d0, 1
        0x8004_00DF + n * 0x1000, // jne d0, n, .+8
        0x0000_003B, // mov d0, 0
        0x0000_2059 + count, // st.w.l [a2]4n, d0
        0x3602_2001, // addsc.a a3, a2, d0, 2
        0x0000_3119, // ld.w.l d1, [a3]0
        0x0FE0_01CD, // mtcr 0xFE00, d1
        0x04C0_000D, // isync
        0x0240_000D, // rslcx
        0x0180_000D, // ret
    ]
}

/// Returns whether the image has `byte`, byte `i` of the switch routine, at its address, and all
/// bytes up to there are inside one rom range.
fn has_routine_byte(image: &Image, plan: &Plan, tasks: &Tasks, i: u32, byte: u8) -> bool
    requires within { i < 72 }
    requires byte { slice_index (switch_routine_bytes tasks.now) i ≡ byte }
    ensures { IsTrue result ↔ HasRoutineByte image.now plan.now tasks.now i }
{
    if !are_bytes_in_rom(plan, tasks.switch, i + 1) {
        return false;
    }
    image.has_byte(tasks.switch + i, byte)
}

/// Returns 18 instruction words that replace the switch routine of `n` tasks when one task is
/// analysed alone. Reads of the routine's data at `b` give any word, and writes are no-ops.
fn view_routine_words(n: u32, b: u32) -> [u32; 18]
    requires { n ≤ 7 }
    ensures { flat_map four_bytes result ≡ bytes_of_instructions (view_routine_of n b) }
{
    let upper = adjusted_upper_half(b);
    let lower = bol_offset_bits(lower_half(b));
    [
        0x0340_000D, // disable
        0x0200_000D, // svlcx
        0x2000_0091 + upper * 0x1000, // movh.a a2, hi(b)
        0x0000_22D9 + lower, // lea.l a2, [a2]lo(b)
        0x0000_004D, // mfcr d0, 0
        0x3602_2001, // addsc.a a3, a2, d0, 2
        0x1000_004D, // mfcr d1, 0
        0x0000_000D, // nop
        0x0000_101B, // addi d0, d0, 1
        0x8004_00DF + n * 0x1000, // jne d0, n, .+8
        0x0000_003B, // mov d0, 0
        0x0000_000D, // nop
        0x3602_2001, // addsc.a a3, a2, d0, 2
        0x1000_004D, // mfcr d1, 0
        0x0000_000D, // nop
        0x04C0_000D, // isync
        0x0240_000D, // rslcx
        0x0180_000D, // ret
    ]
}
