// Bytes, zeros and calls, appended to the bytes of a segment.
ghost use Rattle.std.specs.Prelude.{◌≡◌, ◌≤◌, ◌<◌, ◌+◌, ◌^◌, ◌++◌, OnOk, replicate};
ghost use Rattle.tcd_report.specs.Generated.{call_from};

use tcd_base::{NoMemory, put_u32};

/// Appends bytes of instructions to those of a segment of a generated image.
pub(crate) fn append_segment_bytes(out: &mut Vec<u8>, more: &[u8]) -> Result<(), NoMemory>
    ensures { OnOk result (out.new.items ≡ out.old.items ++ more.now) }
{
    out.extend_from_slice(more)?;
    Ok(())
}

/// Appends zero bytes to those of a segment of a generated image.
pub(crate) fn append_zeros(out: &mut Vec<u8>, count: usize) -> Result<(), NoMemory>
    ensures { OnOk result (out.new.items ≡ out.old.items ++ replicate count 0) }
{
    for _i in 0..count {
        out.push(0)?;
    }
    Ok(())
}

/// Appends to a generated image the call at address `at`, whose target is the later address `to`.
pub(crate) fn append_call(out: &mut Vec<u8>, at: u32, to: u32) -> Result<(), NoMemory>
    requires forward { at ≤ to }
    requires near { to < at + 2 ^ 24 }
    ensures { OnOk result (out.new.items ≡ out.old.items ++ call_from at to) }
{
    let k = (to - at) / 2;
    put_u32(out, k % 65536 * 65536 + k / 65536 * 256 + 0x6d)
}
