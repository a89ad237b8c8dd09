// Reads the statement of a line.
ghost use Rattle.std.specs.Prelude.{◌≡◌, IfSome};
ghost use Rattle.tcd_text.specs.Lines.{line_words};
ghost use Rattle.tc_script.specs.Statements.{statement_of_one_number, statement_of_three_numbers, script_statement_of, HasOrderedBounds};

use crate::numbers::script_number;
use tcd_text::{Words, words_in};

/// The statement of a line: nothing; a number of turns without an interrupt; one turn with an
/// interrupt; whether a misaligned access traps in the turns that follow; or the bounds of a
/// peripheral's answers.
#[derive(Clone, Copy, Debug, PartialEq, Eq)]
pub(crate) enum Statement {
    Blank,
    Step(u32),
    Irq(u8),
    Aln(bool),
    In { device: u32, lo: u32, hi: u32 },
}

/// Returns the statement of a script's line, or None if the line has no statement's form.
#[tactic(auto, using(crate::proofs::Inside::more_words_say_nothing, crate::proofs::Inside::one_ordered, crate::proofs::Inside::three_ordered), unfolding(crate::specs::Statements::script_statement_of))]
pub(crate) fn script_statement_in(line: &[u8]) -> Option<Statement>
    ensures said { result ≡ script_statement_of (line_words line.now) }
    ensures ordered { IfSome result HasOrderedBounds }
{
    match words_in(line) {
        Words::One(word) => {
            if word.is_empty() {
                Some(Statement::Blank)
            } else {
                None
            }
        }
        Words::Two(verb, word) => {
            let n = script_number(word)?;
            statement_of_one_number(verb, n)
        }
        Words::Three(_, _, _) => None,
        Words::Four(verb, first, second, third) => {
            let device = script_number(first)?;
            let lo = script_number(second)?;
            let hi = script_number(third)?;
            statement_of_three_numbers(verb, device, lo, hi)
        }
        Words::More => None,
    }
}

/// Returns a script's statement `step N`, `irq P`, `aln 0` or `aln 1` from its verb and number.
/// `None`: another verb, or the number is out of bounds.
fn statement_of_one_number(verb: &[u8], n: u32) -> Option<Statement>
    ensures { result ≡ statement_of_one_number verb.now n }
{
    match verb {
        b"step" if 1 <= n && n <= 100_000 => Some(Statement::Step(n)),
        b"irq" if n <= 255 => Some(Statement::Irq(n as u8)),
        b"aln" if n <= 1 => Some(Statement::Aln(n == 1)),
        _ => None,
    }
}

/// Returns a script's statement `in DEVICE LO HI` from its verb and numbers. `None`: another verb,
/// or LO is above HI.
fn statement_of_three_numbers(verb: &[u8], device: u32, lo: u32, hi: u32) -> Option<Statement>
    ensures { result ≡ statement_of_three_numbers verb.now device lo hi }
{
    match verb {
        b"in" if lo <= hi => Some(Statement::In { device, lo, hi }),
        _ => None,
    }
}
