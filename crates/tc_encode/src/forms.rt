// The words of instructions, form by form.
ghost use Rattle.std.specs.Prelude.{◌≡◌, ◌<◌, ◌^◌};
ghost use Rattle.tc_isa.specs.Forms.{field_bounds, second_opcode_bound, fields_of_word, second_opcode};
ghost use Rattle.tc_isa.specs.Spelling.{word_of_fields};
ghost use Rattle.tc_isa.specs.InBounds.{AreFieldsBelow};

use tc_isa::{Fields, Form};

/// Returns the fields in the word of an instruction of this form.
#[tactic(auto, unfolding(tc_isa::specs::Forms::fields_of_word))]
#[inline(always)]
pub fn fields_of_word(form: Form, w: u32) -> Fields
    requires { w < 2 ^ 32 }
    ensures { result ≡ fields_of_word form w }
{
    match form {
        Form::Rlc => Fields {
            c: (w / 268435456) as u8,
            s1: (w / 256 % 16) as u8,
            s2: 0,
            n: 0,
            k: w / 4096 % 65536,
        },
        Form::Rr => Fields {
            c: (w / 268435456) as u8,
            s1: (w / 256 % 16) as u8,
            s2: (w / 4096 % 16) as u8,
            n: (w / 65536 % 4) as u8,
            k: 0,
        },
        Form::Rc => Fields {
            c: (w / 268435456) as u8,
            s1: (w / 256 % 16) as u8,
            s2: 0,
            n: 0,
            k: w / 4096 % 512,
        },
        Form::Bol => Fields {
            c: 0,
            s1: (w / 256 % 16) as u8,
            s2: (w / 4096 % 16) as u8,
            n: 0,
            k: w / 268435456 * 64 + w / 4194304 % 64 * 1024 + w / 65536 % 64,
        },
        Form::Bo => Fields {
            c: 0,
            s1: (w / 256 % 16) as u8,
            s2: (w / 4096 % 16) as u8,
            n: 0,
            k: w / 268435456 * 64 + w / 65536 % 64,
        },
        Form::Brr | Form::Brc => Fields {
            c: 0,
            s1: (w / 256 % 16) as u8,
            s2: (w / 4096 % 16) as u8,
            n: 0,
            k: w / 65536 % 32768,
        },
        Form::B => Fields {
            c: 0,
            s1: 0,
            s2: 0,
            n: 0,
            k: w / 256 % 256 * 65536 + w / 65536,
        },
        Form::Abs => Fields {
            c: 0,
            s1: (w / 256 % 16) as u8,
            s2: 0,
            n: 0,
            k: w / 268435456 * 64
                + w / 4194304 % 16 * 1024
                + w / 65536 % 64
                + w / 4096 % 16 * 16384,
        },
        Form::Sys => Fields {
            c: 0,
            s1: 0,
            s2: 0,
            n: 0,
            k: 0,
        },
        Form::Sr => Fields {
            c: 0,
            s1: (w / 256 % 16) as u8,
            s2: 0,
            n: 0,
            k: 0,
        },
        Form::Sc | Form::Sb => Fields {
            c: 0,
            s1: 0,
            s2: 0,
            n: 0,
            k: w / 256 % 256,
        },
        Form::Sbr => Fields {
            c: 0,
            s1: 0,
            s2: (w / 4096 % 16) as u8,
            n: 0,
            k: w / 256 % 16,
        },
        Form::Src => Fields {
            c: 0,
            s1: (w / 256 % 16) as u8,
            s2: 0,
            n: 0,
            k: w / 4096 % 16,
        },
        Form::Srr | Form::Slr | Form::Ssr => Fields {
            c: 0,
            s1: (w / 256 % 16) as u8,
            s2: (w / 4096 % 16) as u8,
            n: 0,
            k: 0,
        },
    }
}

/// Returns the second operation code in the word of an instruction of this form, or 0 if the form
/// has none.
#[tactic(auto, unfolding(tc_isa::specs::Forms::second_opcode))]
pub fn second_opcode(form: Form, w: u32) -> u8
    requires { w < 2 ^ 32 }
    ensures { result ≡ second_opcode form w }
{
    match form {
        Form::Rr => (w / 1048576 % 256) as u8,
        Form::Rc => (w / 2097152 % 128) as u8,
        Form::Bo | Form::Sys => (w / 4194304 % 64) as u8,
        Form::Brr | Form::Brc => (w / 2147483648) as u8,
        Form::Abs => (w / 67108864 % 4) as u8,
        Form::Sr => (w / 4096 % 16) as u8,
        _ => 0,
    }
}

/// Returns the word of the instruction of this form with these operation codes and fields.
#[tactic(auto, unfolding(tc_isa::specs::Spelling::word_of_fields, tc_isa::specs::Forms::field_bounds, tc_isa::specs::Forms::second_opcode_bound))]
pub fn word_of_fields(form: Form, op1: u8, op2: u8, f: &Fields) -> u32
    requires second { op2 < second_opcode_bound form }
    requires below { AreFieldsBelow f.now (field_bounds form) }
    ensures { result ≡ word_of_fields form op1 op2 f.now }
{
    let op1 = u32::from(op1);
    let op2 = u32::from(op2);
    let (c, s1, s2, n, k) = (
        u32::from(f.c),
        u32::from(f.s1),
        u32::from(f.s2),
        u32::from(f.n),
        f.k,
    );
    match form {
        Form::Rlc => c * 268435456 + k * 4096 + s1 * 256 + op1,
        Form::Rr => c * 268435456 + op2 * 1048576 + n * 65536 + s2 * 4096 + s1 * 256 + op1,
        Form::Rc => c * 268435456 + op2 * 2097152 + k * 4096 + s1 * 256 + op1,
        Form::Bol => k / 64 % 16 * 268435456
            + k / 1024 * 4194304
            + k % 64 * 65536
            + s2 * 4096
            + s1 * 256
            + op1,
        Form::Bo => k / 64 * 268435456
            + op2 * 4194304
            + k % 64 * 65536
            + s2 * 4096
            + s1 * 256
            + op1,
        Form::Brr | Form::Brc => op2 * 2147483648 + k * 65536 + s2 * 4096 + s1 * 256 + op1,
        Form::B => k % 65536 * 65536 + k / 65536 * 256 + op1,
        Form::Abs => k / 64 % 16 * 268435456
            + op2 * 67108864
            + k / 1024 % 16 * 4194304
            + k % 64 * 65536
            + k / 16384 * 4096
            + s1 * 256
            + op1,
        Form::Sys => op2 * 4194304 + op1,
        Form::Sr => op2 * 4096 + s1 * 256 + op1,
        Form::Sc | Form::Sb => k * 256 + op1,
        Form::Sbr => s2 * 4096 + k * 256 + op1,
        Form::Src => k * 4096 + s1 * 256 + op1,
        Form::Srr | Form::Slr | Form::Ssr => s2 * 4096 + s1 * 256 + op1,
    }
}
