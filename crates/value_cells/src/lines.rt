// Lines of a text of cells.
ghost use Rattle.std.specs.Prelude.{◌≡◌, IfSome};
ghost use Rattle.value_cells.specs.CellListText.{cell_of_line, IsCellOfLine};

use crate::Cell;
use tcd_text::{Words, hex_number, words_in};

/// Returns the cell of the line `cell AT LO HI`, or `None` for another form, an unaligned address,
/// or bounds out of order.
#[tactic(auto, using(crate::proofs::LineForms::more), unfolding(crate::specs::CellListText::cell_of_words, crate::specs::CellListText::cell_of_numbers))]
pub(crate) fn parse_cell_line(line: &[u8]) -> Option<Cell>
    ensures cell { result ≡ cell_of_line line.now }
    ensures said { IfSome result IsCellOfLine }
{
    match words_in(line) {
        Words::One(_) => None,
        Words::Two(_, _) => None,
        Words::Three(_, _, _) => None,
        Words::Four(word, at, lo, hi) => {
            if word != b"cell".as_slice() {
                return None;
            }
            let at = hex_number(at)?;
            let lo = hex_number(lo)?;
            let hi = hex_number(hi)?;
            if at % 4 == 0 && lo <= hi {
                Some(Cell { at, lo, hi })
            } else {
                None
            }
        }
        Words::More => None,
    }
}
