// The functions of a generated image, its main program, and the handler of an interrupt.
ghost use Rattle.std.specs.Prelude.{◌≡◌, ◌≤◌, ◌<◌, ◌+◌, ◌*◌, ◌++◌, OnOk, IfOk, ◌-◌};
ghost use Rattle.tcd_report.specs.Generated.{generated_function_address, call_if_any, generated_function_code, generated_functions, generated_main_code, generated_handler};

use crate::generating::appending::{append_call, append_segment_bytes, append_zeros};
use std::alloc::Global;
use tcd_base::NoMemory;

/// Returns the bytes of all n functions of a generated image, each but the last with zeros up to
/// the next one.
pub(crate) fn generated_functions(alloc: Global, n: u32) -> Result<Vec<u8>, NoMemory>
    requires some { 1 ≤ n }
    requires few { n ≤ 500 }
    ensures { IfOk result (λ v. v.items ≡ generated_functions n) }
{
    let mut out = Vec::new(alloc);
    for i in 0..n - 1 {
        let start = out.len();
        append_function(&mut out, n, i)?;
        let zeros = 32 - (out.len() - start);
        append_zeros(&mut out, zeros)?;
    }
    append_function(&mut out, n, n - 1)?;
    Ok(out)
}

/// Returns the address of function i of a generated image.
pub(crate) fn generated_function_address(i: u32) -> u32
    requires { i < 1024 }
    ensures { result ≡ generated_function_address i }
{
    0x8000_8000 + 32 * i
}

/// Returns the bytes of a generated image's main program: eight instructions.
#[tactic(auto, using(crate::proofs::ImageLemmas::Instructions::main_bytes))]
pub(crate) fn generated_main_code() -> [u8; 32]
    ensures { result ≡ generated_main_code }
{
    [
        0x91, 0x00, 0x00, 0xff, // movh.a a15, 0xF000
        0x19, 0xff, 0x00, 0x00, // ld.w.l d15, [a15]0
        0x91, 0x00, 0x00, 0xe8, // movh.a a14, 0x8000
        0x01, 0xef, 0x02, 0xe6, // addsc.a a14, a14, d15, 2
        0x99, 0xee, 0x00, 0x40, // ld.a.l a14, [a14]256
        0x2d, 0x0e, 0x00, 0x00, // calli a14
        0xad, 0x10, 0x80, 0x00, // syscall 1
        0x1d, 0xff, 0xf2, 0xff, // j .-28
    ]
}

// Appends the handler of interrupt p: `bisr16 p`, a call of function n - 1, `rslcx`, `rfe16`.
#[tactic(auto, using(crate::proofs::ImageLemmas::Instructions::handler_bytes))]
pub(crate) fn append_handler(out: &mut Vec<u8>, n: u32, p: u8) -> Result<(), NoMemory>
    requires some { 1 ≤ n }
    requires few { n ≤ 500 }
    ensures { OnOk result (out.new.items ≡ out.old.items ++ generated_handler n p) }
{
    append_segment_bytes(out, &[0xe0, p])?;
    append_call(
        out,
        0x8000_2002 + 32 * u32::from(p),
        generated_function_address(n - 1),
    )?;
    append_segment_bytes(out, &[0x0d, 0x00, 0x40, 0x02, 0x00, 0x80])
}

// Appends function i of n to a generated image. It reserves eight bytes of stack, stores a word
// there, and calls the functions 2i + 1 and 2i + 2, if there are any.
#[tactic(auto, using(crate::proofs::ImageLemmas::Instructions::function_bytes))]
fn append_function(out: &mut Vec<u8>, n: u32, i: u32) -> Result<(), NoMemory>
    requires few { n ≤ 500 }
    requires within { i < n }
    ensures { OnOk result (out.new.items ≡ out.old.items ++ generated_function_code n i) }
{
    let at = generated_function_address(i);
    // sub16.a a10, 8; st16.w [a10], d15
    append_segment_bytes(out, &[0x20, 0x08, 0x74, 0xaf])?;
    append_call_if_any(out, n, at + 4, 2 * i + 1)?;
    append_call_if_any(out, n, at + 8, 2 * i + 2)?;
    // ret16
    append_segment_bytes(out, &[0x00, 0x90])
}

// Appends a call of function i at address `at`; nothing if i isn't below n, the number of all.
fn append_call_if_any(out: &mut Vec<u8>, n: u32, at: u32, i: u32) -> Result<(), NoMemory>
    requires few { n ≤ 500 }
    requires low { 0x80008000 ≤ at }
    requires forward { i < n → at ≤ generated_function_address i }
    ensures { OnOk result (out.new.items ≡ out.old.items ++ call_if_any n at i) }
{
    if i < n {
        append_call(out, at, generated_function_address(i))?;
    }
    Ok(())
}
