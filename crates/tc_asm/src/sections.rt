// The sections of a draft.
ghost use Rattle.std.specs.Prelude.{◌≡◌, ◌<◌, ◌≤◌, ◌^◌, map, OnOk, length, position, replicate};
ghost use Rattle.std.specs.Str.{bytes_eq};
ghost use Rattle.tc_stmt.specs.Items.{reference_of};
ghost use Rattle.tc_asm.specs.DraftViews.{draft_section_of};
ghost use Rattle.tc_asm.specs.Drafts.{with_section_bytes, with_section_use, section_number};

use crate::draft::MOST_BYTES;
use std::alloc::AllocError;
use tc_lex::are_same_bytes;
use tc_stmt::Reference;

/// Four bytes of a section that wait for the value of a symbol.
#[derive(Clone, Copy)]
pub struct Use<'a> {
    /// The offset of the four bytes in their section.
    pub offset: usize,
    /// The symbol, with the number that is added.
    pub reference: Reference<'a>,
}

/// A section of a draft: its name, its bytes so far, and its uses of symbols.
#[derive(Drop)]
pub struct Part<'a> {
    /// The name of the section.
    pub name: &'a [u8],
    /// Its bytes so far, without the zeros at their end that are only counted.
    pub bytes: Vec<u8>,
    /// The number of zeros after these bytes. The first pass only counts, so it writes none.
    pub zeros: u32,
    /// Its uses of symbols, in ascending order of offsets.
    pub uses: Vec<Use<'a>>,
}

/// The number of the draft's section with this name, or the number of sections if none has it.
pub(crate) fn section_number(parts: &[Part], name: &[u8]) -> usize
    ensures value { result ≡ section_number (map draft_section_of parts.now) name.now }
    ensures within { result ≤ length parts.now }
{
    match find_section(parts, name) {
        Some(i) => i,
        None => parts.len(),
    }
}

/// The number of bytes of a draft's section so far, with the zeros that are only counted.
pub(crate) fn section_len(part: &Part) -> usize
    ensures { result ≡ length (draft_section_of part.now).bytes }
{
    part.bytes.len() + part.zeros as usize
}

/// Adds bytes at the end of section `i` of a draft.
#[inline(always)]
pub(crate) fn grow_section(parts: &mut Vec<Part>, i: usize, bytes: &[u8]) -> Result<(), AllocError>
    requires { i < length parts.old.items }
    ensures { OnOk result (map draft_section_of parts.new.items
        ≡ with_section_bytes (map draft_section_of parts.old.items) i bytes.now) }
{
    let part = &mut parts[i];
    write_zeros_if_any(part)?;
    part.bytes.extend_from_slice(bytes)?;
    Ok(())
}

/// Adds `n` zero bytes, for now only counted, at the end of section `i` of a draft.
pub(crate) fn add_section_zeros(parts: &mut Vec<Part>, i: usize, n: usize) -> Result<(), AllocError>
    requires place { i < length parts.old.items }
    requires few { n ≤ 2 ^ 24 }
    ensures { OnOk result
        (map draft_section_of parts.new.items
        ≡ with_section_bytes (map draft_section_of parts.old.items) i (replicate n 0)) }
{
    let part = &mut parts[i];
    limit_counted_zeros(part)?;
    part.zeros += n as u32;
    Ok(())
}

/// Notes that the four bytes at `offset` in section `i` of a draft wait for the value of a symbol.
pub(crate) fn add_section_use<'a>(
    parts: &mut Vec<Part<'a>>,
    i: usize,
    offset: usize,
    reference: Reference<'a>,
) -> Result<(), AllocError>
    requires { i < length parts.old.items }
    ensures { OnOk result (map draft_section_of parts.new.items
        ≡ with_section_use (map draft_section_of parts.old.items) i
        (record { offset = offset; reference = reference_of reference.entry })) }
{
    let part = &mut parts[i];
    part.uses.push(Use { offset, reference })?;
    Ok(())
}

// Writes out the zero bytes at the end of a draft's section that were only counted so far.
#[inline(never)]
pub(crate) fn write_counted_zeros(part: &mut Part) -> Result<(), AllocError>
    ensures same { OnOk result (draft_section_of part.new ≡ draft_section_of part.old) }
    ensures none { OnOk result (part.new.zeros ≡ 0) }
{
    let len = section_len(part);
    part.bytes.resize(len, 0)?;
    part.zeros = 0;
    Ok(())
}

/// Returns the number of the draft's section with this name, or `None` if none has this name.
fn find_section(parts: &[Part], name: &[u8]) -> Option<usize>
    ensures { result ≡ position (λ p. bytes_eq name.now p.name.now) parts.now }
{
    parts.iter().position(|p| are_same_bytes(name, p.name))
}

// Writes out the zero bytes at the end of a draft's section that were only counted, so that other
// bytes can follow.
#[inline(always)]
fn write_zeros_if_any(part: &mut Part) -> Result<(), AllocError>
    ensures same { OnOk result (draft_section_of part.new ≡ draft_section_of part.old) }
    ensures none { OnOk result (part.new.zeros ≡ 0) }
{
    if part.zeros == 0 {
        return Ok(());
    }
    write_counted_zeros(part)
}

// Writes out the counted zero bytes at the end of a draft's section if there are more than
// 16,777,216, so that their count can't overflow.
fn limit_counted_zeros(part: &mut Part) -> Result<(), AllocError>
    ensures same { OnOk result (draft_section_of part.new ≡ draft_section_of part.old) }
    ensures few { OnOk result (part.new.zeros ≤ 2 ^ 24) }
{
    if part.zeros as usize <= MOST_BYTES {
        return Ok(());
    }
    write_counted_zeros(part)?;
    Ok(())
}
