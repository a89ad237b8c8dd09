// Lines of a text of tasks.
ghost use Rattle.std.specs.Prelude.{◌≡◌};
ghost use Rattle.tcd_text.specs.Lines.{line_words};
ghost use Rattle.task_chains.specs.TaskListText.{number_pair_of_words, switch_addresses_of};

use tcd_text::{Words, hex_number, words_in};

/// The addresses of the switch routine and of the tasks' block of words.
#[derive(Clone, Copy, Debug, PartialEq, Eq)]
pub struct Places {
    pub switch: u32,
    pub block: u32,
}

/// Parses a line `switch Y B`: the addresses of the task switch routine and of its data block. None
/// for another line, or if Y is odd or B no multiple of 4.
pub(crate) fn switch_addresses_in(line: &[u8]) -> Option<Places>
    ensures { result ≡ switch_addresses_of line.now }
{
    match number_pair_in_line(b"switch".as_slice(), line) {
        Some((switch, block)) if switch % 2 == 0 && block % 4 == 0 => Some(Places {
            switch,
            block,
        }),
        _ => None,
    }
}

/// Returns the two hexadecimal numbers of a line `NAME X Y` in a list of tasks, or None if the form
/// or the name differs.
#[tactic(auto, using(crate::proofs::LineForms::more), unfolding(crate::specs::TaskListText::number_pair_of_words))]
pub(crate) fn number_pair_in_line(name: &[u8], line: &[u8]) -> Option<(u32, u32)>
    ensures { result ≡ number_pair_of_words name.now (line_words line.now) }
{
    let Words::Three(word, x, y) = words_in(line) else {
        return None;
    };
    if word != name {
        return None;
    }
    let first = hex_number(x)?;
    let second = hex_number(y)?;
    Some((first, second))
}
