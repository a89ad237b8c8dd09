// Finds the row of a statement.
ghost use Rattle.std.specs.Prelude.{◌≡◌, ◌<◌, map, length, true};
ghost use Rattle.std.specs.Str.{bytes_eq};
ghost use Rattle.tc_isa.specs.Rows.{row_of};
ghost use Rattle.tc_stmt.specs.Wants.{wants_of, row_wants_now};
ghost use Rattle.tc_lex.specs.Operands.{operand_of};
ghost use Rattle.tc_stmt.specs.RowFields.{zero_fields};
ghost use Rattle.tc_stmt.specs.Filling.{GivesFieldsOrFalse, fill_operands, note_equal_registers, fields_of_row};
ghost use Rattle.tc_stmt.specs.StatementRow.{row_outcome, first_fitting_row, GivesRowOutcome, GivesStatementOutcome, row_of_statement, rule_broken_by_statement};
ghost use Rattle.tc_stmt.specs.RowIndex.{IsFirstRowIndex, IsNextRowIndex};

use crate::fill_fields::fill_operands;
use crate::row_fields::{RowFields, note_equal_registers, zero_fields};
use crate::row_index::{first_row_to_try, first_rows_by_key, next_row_to_try, next_rows_by_key};
use crate::row_wants::wants;
use crate::source_rules::NO_RULE;
use crate::tally::{Tally, rule_broken_by_statement};
use crate::want::Want;
use tc_isa::{Row, rows};
use tc_lex::{Operand, are_same_bytes};

/// Finds the first row of the instruction table that a statement fits, by its name and operands
/// `os`: the row's number and filled fields. The error is the lowest-numbered source rule broken.
pub fn row_of_statement<'a>(name: &[u8], os: &[Operand<'a>]) -> Result<(u8, RowFields<'a>), u8>
    ensures { GivesStatementOutcome result (row_of_statement name.now (map operand_of os.now)) }
{
    search_statement_row(
        rows(),
        wants(),
        first_rows_by_key(),
        next_rows_by_key(),
        name,
        os,
    )
}

/// Finds the first row that the statement `name` with operands `os` fits, by the index `first` and
/// `next` and the rows' operand kinds `wants`. The error is the lowest-numbered source rule broken.
fn search_statement_row<'a>(
    rows: &[Row],
    wants: &[&[Want]],
    first: &[u8],
    next: &[u8],
    name: &[u8],
    os: &[Operand<'a>],
) -> Result<(u8, RowFields<'a>), u8>
    requires wants { map row_wants_now wants.now ≡ map wants_of (map row_of rows.now) }
    requires few { length rows.now < 256 }
    requires first { IsFirstRowIndex (map row_of rows.now) first.now }
    requires next { IsNextRowIndex (map row_of rows.now) next.now }
    ensures { GivesStatementOutcome result
        (first_fitting_row name.now (map operand_of os.now) (map row_of rows.now)) }
{
    let mut so_far = Tally {
        named: false,
        fits: false,
        least: NO_RULE,
    };
    let mut found = zero_fields();
    let mut i = first_row_to_try(first, name);
    'rows: while i < rows.len() {
        match try_statement_row(&rows[i], wants[i], name, os, so_far, &mut found) {
            Ok(()) => return Ok((i as u8, found)),
            Err(after) => so_far = after,
        }
        i = next_row_to_try(rows, next, i, name);
    }
    Err(rule_broken_by_statement(so_far))
}

/// Matches the statement `name` with operands `os` against one row of the instruction table. Fills
/// `found` on success; the error is `so_far` with this row's mismatch noted.
#[tactic(auto, unfolding(crate::specs::StatementRow::row_outcome))]
fn try_statement_row<'a>(
    row: &Row,
    wants: &[Want],
    name: &[u8],
    os: &[Operand<'a>],
    so_far: Tally,
    found: &mut RowFields<'a>,
) -> Result<(), Tally>
    requires { wants.now ≡ wants_of (row_of row.now) }
    ensures { GivesRowOutcome result found.new
        (row_outcome name.now (map operand_of os.now) (row_of row.now) so_far) }
{
    if are_same_bytes(row.name.as_bytes(), name) {
        try_row_of_name(row, wants, name, os, so_far, found)
    } else {
        Err(so_far)
    }
}

// Matches the operands `os` against a table row that has the statement's name. Fills `found` on
// success; the error is `so_far` with this row's mismatch noted.
#[inline(never)]
#[tactic(auto, unfolding(crate::specs::StatementRow::row_outcome))]
fn try_row_of_name<'a>(
    row: &Row,
    wants: &[Want],
    name: &[u8],
    os: &[Operand<'a>],
    so_far: Tally,
    found: &mut RowFields<'a>,
) -> Result<(), Tally>
    requires wants { wants.now ≡ wants_of (row_of row.now) }
    requires named { bytes_eq (row_of row.now).name name.now ≡ true }
    ensures { GivesRowOutcome result found.new
        (row_outcome name.now (map operand_of os.now) (row_of row.now) so_far) }
{
    if !fill_statement_row(row, wants, os, found) {
        return Err(Tally {
            named: true,
            ..so_far
        });
    }
    if found.rule == NO_RULE {
        Ok(())
    } else {
        Err(Tally {
            named: true,
            fits: true,
            least: so_far.least.min(found.rule),
        })
    }
}

// Fills `found` from the operands `os`. Returns false if their forms aren't those the row wants.
#[tactic(auto, unfolding(crate::specs::Filling::fields_of_row))]
fn fill_statement_row<'a>(
    row: &Row,
    wants: &[Want],
    os: &[Operand<'a>],
    found: &mut RowFields<'a>,
) -> bool
    ensures { GivesFieldsOrFalse result found.new
        (fields_of_row (row_of row.now) wants.now (map operand_of os.now)) }
{
    *found = zero_fields();
    if !fill_operands(row, wants, os, found) {
        return false;
    }
    note_equal_registers(row, found);
    true
}
