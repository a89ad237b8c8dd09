// Public laws of numbers and statements.
ghost use Rattle.tc_lex.specs.Numbers.{TokenNumbersAreExact};
ghost use Rattle.tc_stmt.specs.StatedRows.{StatementsFitRows};

/// A token's number is what its digits spell, if below 2^128. A statement that breaks no rule fits
/// its row of the instruction table, with 0 in the field that its symbol, if any, will fill.
pub fn number_and_statement_laws()
    ensures numbers { TokenNumbersAreExact }
    ensures stated { StatementsFitRows }
{}
