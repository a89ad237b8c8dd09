// The table and the vectors of a generated image.
ghost use Rattle.std.specs.Prelude.{◌≡◌, ◌≤◌, ◌<◌, ◌+◌, ◌*◌, IfOk};
ghost use Rattle.tcd_report.specs.Generated.{generated_vectors, generated_function_address, generated_function_table};

use crate::generating::appending::append_zeros;
use crate::generating::functions::{append_handler, generated_function_address};
use std::alloc::Global;
use tcd_base::{NoMemory, put_u32};

/// Returns the bytes of the handlers of the interrupts 10, 20 .. 160 in a generated image of n
/// functions, with zeros up to the next handler.
pub(crate) fn generated_vectors(alloc: Global, n: u32) -> Result<Vec<u8>, NoMemory>
    requires some { 1 ≤ n }
    requires few { n ≤ 500 }
    ensures { IfOk result (λ v. v.items ≡ generated_vectors n) }
{
    let mut out = Vec::new(alloc);
    for j in 0..15 {
        append_handler(&mut out, n, 10 * j + 10)?;
        append_zeros(&mut out, 308)?;
    }
    append_handler(&mut out, n, 160)?;
    Ok(out)
}

/// Returns the bytes of the table of a generated image of n functions: the addresses of sixteen
/// functions, from which the main program takes one.
pub(crate) fn generated_function_table(alloc: Global, n: u32) -> Result<Vec<u8>, NoMemory>
    requires some { 1 ≤ n }
    requires few { n ≤ 500 }
    ensures { IfOk result (λ v. v.items ≡ generated_function_table n) }
{
    let mut out = Vec::new(alloc);
    for j in 0..16 {
        put_u32(&mut out, generated_function_address(j % n))?;
    }
    Ok(out)
}
