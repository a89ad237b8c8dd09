// Writes the only bytes that spell compact values and states in a certificate.
ghost use Rattle.std.specs.Prelude.{◌≡◌, ◌++◌, All, OnOk, Some, replicate};
ghost use Rattle.std.specs.List.{flat_map};
ghost use Rattle.value_domain.specs.Values.{IsWellFormed};
ghost use Rattle.depth_cert.specs.Keys.{cert_flag_byte};
ghost use Rattle.depth_cert.specs.Spelling.{bytes_of_exit, bytes_of_state, bytes_of_value};
ghost use Rattle.small_states.specs.CompactForms.{all_values, whole_exit, whole_state};

use crate::gathered::Gathered;
use crate::small_value::{Small, SmallForm};
use crate::states::{SmallExit, SmallState};
use crate::values::Values;
use tcd_base::NoMemory;

/// Returns the byte that spells a flag in a certificate: 1 for true, 0 for false.
#[inline(always)]
fn cert_flag_byte(x: bool) -> u8
    ensures { result ≡ cert_flag_byte x }
{
    if x { 1 } else { 0 }
}

/// Appends the certificate's bytes of all values of a compact list, known and unknown, to the
/// buffer `gathered`. A buffer without room is flushed to `out`.
#[inline(always)]
fn write_values(out: &mut Vec<u8>, gathered: &mut Gathered, values: &Values) -> Result<(), NoMemory>
    requires { All IsWellFormed (all_values values.now) }
    ensures { OnOk result (out.new.items ++ gathered.new
        ≡ (out.old.items ++ gathered.old) ++ flat_map bytes_of_value (all_values values.now)) }
{
    let known = values.known.as_slice();
    for n in 0..known.len() {
        let here = &known[n];
        if !gathered.push_spaced_word(here) {
            append_spaced_value(out, gathered, here.anys, &here.value)?;
        }
    }
    gathered.push_unknowns(out, values.rest)
}

/// Appends the certificate's bytes of `anys` unknown values and the known value `v` to `out`, by
/// way of the buffer `gathered`. The slow path for what `push_spaced_word` refuses.
#[inline(never)]
fn append_spaced_value(
    out: &mut Vec<u8>,
    gathered: &mut Gathered,
    anys: u32,
    v: &Small,
) -> Result<(), NoMemory>
    requires { IsWellFormed v.now }
    ensures { OnOk result (out.new.items ++ gathered.new
        ≡ ((out.old.items ++ gathered.old) ++ replicate anys 0) ++ bytes_of_value v.now) }
{
    gathered.push_unknowns(out, anys)?;
    if let SmallForm::Many(own) = &v.form {
        if let Some(words) = own.as_ref().words() {
            return gathered.push_set(out, words);
        }
    }
    if let SmallForm::Range { lo, last, step } = &v.form {
        return gathered.push_range(out, *lo, *last, *step);
    }
    gathered.flush(out)?;
    v.append_bytes(out)
}

impl SmallState {
    /// Appends the certificate's bytes of this compact state to `out`.
    #[tactic(auto, unfolding(depth_cert::specs::Spelling::bytes_of_state))]
    pub(crate) fn append_bytes(&self, out: &mut Vec<u8>) -> Result<(), NoMemory>
        requires { All IsWellFormed (all_values self.now.regs.value) }
        ensures { OnOk result
            (out.new.items ≡ out.old.items ++ bytes_of_state (whole_state self.now)) }
    {
        let locals = self.locals.as_slice();
        let mut gathered = Gathered::new();
        gathered.push(cert_flag_byte(self.ie));
        gathered.push(self.ccpn);
        gathered.push(cert_flag_byte(self.lower));
        gathered.push(locals.len() as u8);
        for flag in locals {
            gathered.push(cert_flag_byte(*flag));
        }
        write_values(out, &mut gathered, self.regs.as_ref())?;
        gathered.append_to(out)
    }
}

impl SmallExit {
    /// Appends to `out` the byte 1 (an exit is present) and the certificate's bytes of this exit.
    #[tactic(auto, unfolding(depth_cert::specs::Spelling::bytes_of_exit))]
    pub fn append_bytes(&self, out: &mut Vec<u8>) -> Result<(), NoMemory>
        requires { All IsWellFormed (all_values self.now.lower.value) }
        ensures { OnOk result
            (out.new.items ≡ out.old.items ++ bytes_of_exit (Some (whole_exit self.now))) }
    {
        let mut gathered = Gathered::new();
        gathered.push(1);
        gathered.push(cert_flag_byte(self.ie));
        gathered.push(self.ccpn);
        write_values(out, &mut gathered, self.lower.as_ref())?;
        gathered.append_to(out)
    }
}
