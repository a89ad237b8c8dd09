// Numbers for the forms of instructions.
ghost use Rattle.std.specs.Prelude.{◌≡◌};
ghost use Rattle.tc_isa.specs.Forms.{form_index};

use tc_isa::Form;

/// Loads and stores with a long offset.
pub(crate) const BOL: u8 = 3;

/// Calls and jumps of 32 bits.
pub(crate) const B: u8 = 7;

/// Loads, stores and lea of an absolute address.
pub(crate) const ABS: u8 = 8;

/// Branches of 16 bits, which only go forwards.
pub(crate) const SBR: u8 = 13;

/// A number for each format of instructions, so that formats can be compared.
#[tactic(auto, unfolding(tc_isa::specs::Forms::form_index))]
pub(crate) fn form_index(form: Form) -> u8
    ensures { result ≡ form_index form }
{
    match form {
        Form::Rlc => 0,
        Form::Rr => 1,
        Form::Rc => 2,
        Form::Bol => BOL,
        Form::Bo => 4,
        Form::Brr => 5,
        Form::Brc => 6,
        Form::B => B,
        Form::Abs => ABS,
        Form::Sys => 9,
        Form::Sr => 10,
        Form::Sc => 11,
        Form::Sb => 12,
        Form::Sbr => SBR,
        Form::Src => 14,
        Form::Srr => 15,
        Form::Slr => 16,
        Form::Ssr => 17,
    }
}
