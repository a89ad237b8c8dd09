// The bounds of the operand fields, form by form.
ghost use Rattle.std.specs.Prelude.{◌≡◌, ◌↔◌, IsTrue};
ghost use Rattle.tc_isa.specs.Forms.{field_bounds};
ghost use Rattle.tc_isa.specs.InBounds.{AreFieldsBelow};

use crate::{Fields, Form};

/// Returns the exclusive upper bounds of an instruction format's operand fields. A field that the
/// format doesn't have is 0, so its bound is 1.
#[tactic(auto, unfolding(crate::specs::Forms::field_bounds))]
pub fn field_bounds(form: Form) -> Fields
    ensures { result ≡ field_bounds form }
{
    match form {
        Form::Rlc => Fields {
            c: 16,
            s1: 16,
            s2: 1,
            n: 1,
            k: 65536,
        },
        Form::Rr => Fields {
            c: 16,
            s1: 16,
            s2: 16,
            n: 4,
            k: 1,
        },
        Form::Rc => Fields {
            c: 16,
            s1: 16,
            s2: 1,
            n: 1,
            k: 512,
        },
        Form::Bol => Fields {
            c: 1,
            s1: 16,
            s2: 16,
            n: 1,
            k: 65536,
        },
        Form::Bo => Fields {
            c: 1,
            s1: 16,
            s2: 16,
            n: 1,
            k: 1024,
        },
        Form::Brr | Form::Brc => Fields {
            c: 1,
            s1: 16,
            s2: 16,
            n: 1,
            k: 32768,
        },
        Form::B => Fields {
            c: 1,
            s1: 1,
            s2: 1,
            n: 1,
            k: 16777216,
        },
        Form::Abs => Fields {
            c: 1,
            s1: 16,
            s2: 1,
            n: 1,
            k: 262144,
        },
        Form::Sys => Fields {
            c: 1,
            s1: 1,
            s2: 1,
            n: 1,
            k: 1,
        },
        Form::Sr => Fields {
            c: 1,
            s1: 16,
            s2: 1,
            n: 1,
            k: 1,
        },
        Form::Sc | Form::Sb => Fields {
            c: 1,
            s1: 1,
            s2: 1,
            n: 1,
            k: 256,
        },
        Form::Sbr => Fields {
            c: 1,
            s1: 1,
            s2: 16,
            n: 1,
            k: 16,
        },
        Form::Src => Fields {
            c: 1,
            s1: 16,
            s2: 1,
            n: 1,
            k: 16,
        },
        Form::Srr | Form::Slr | Form::Ssr => Fields {
            c: 1,
            s1: 16,
            s2: 16,
            n: 1,
            k: 1,
        },
    }
}

/// Returns true if each field of an instruction is below the bound for that field.
pub fn are_fields_below(f: &Fields, bounds: &Fields) -> bool
    ensures { IsTrue result ↔ AreFieldsBelow f.now bounds.now }
{
    f.c < bounds.c && f.s1 < bounds.s1 && f.s2 < bounds.s2 && f.n < bounds.n && f.k < bounds.k
}
