// Appends the text of an instruction.
ghost use Rattle.std.specs.Prelude.{◌≡◌, ◌++◌, OnOk, string_bytes};
ghost use Rattle.tc_isa.specs.Forms.{field_bounds};
ghost use Rattle.tc_isa.specs.InBounds.{AreFieldsBelow};
ghost use Rattle.tc_isa.specs.Rows.{row_of};
ghost use Rattle.tc_stmt.specs.Wants.{wants_of};
ghost use Rattle.tc_disasm.specs.Texts.{row_text, instruction_text};

use crate::operands::append_operands;
use tc_isa::{Fields, Form, Inst, Row, rows};
use tc_stmt::{Want, wants};
use tcd_base::NoMemory;
use tcd_text::append_str;

/// Appends the text of an instruction to a listing: its name, and its operands.
pub(crate) fn append_instruction(text: &mut String, inst: &Inst) -> Result<(), NoMemory>
    ensures { OnOk result (string_bytes text.new ≡ string_bytes text.old
        ++ instruction_text inst.now) }
{
    let place = usize::from(inst.row);
    let fields = Fields {
        c: inst.c,
        s1: inst.s1,
        s2: inst.s2,
        n: inst.n,
        k: inst.k,
    };
    append_row_text(text, &rows()[place], wants()[place], &fields)
}

/// Appends an instruction's name and operands to a listing. `row` is the instruction's row of the
/// instruction table, `wants` are its kinds of operands, `f` has their values.
#[tactic(auto, unfolding(crate::specs::Texts::row_text))]
fn append_row_text(text: &mut String, row: &Row, wants: &[Want], f: &Fields) -> Result<(), NoMemory>
    requires wants { wants.now ≡ wants_of (row_of row.now) }
    requires fits { AreFieldsBelow f.now (field_bounds row.now.form) }
    ensures { OnOk result
        (string_bytes text.new ≡ string_bytes text.old ++ row_text (row_of row.now) f.now) }
{
    append_str(text, row.name)?;
    append_operands(text, row.form, f, wants)
}
