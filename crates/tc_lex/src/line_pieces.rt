// Cuts a line into tokens with their texts.
ghost use Rattle.std.specs.Prelude.{◌≡◌, ◌<◌, ◌≤◌, ◌+◌, length, map};
ghost use Rattle.tc_lex.specs.Cut.{tokens_of, token};
ghost use Rattle.tc_lex.specs.Pieces.{piece_of, piece_of_token, pieces_of_tokens, GivesTokenTexts};

use crate::kinds::{Front, TokenKind};
use crate::longest_token::longest_token_at;
use crate::pieces::Piece;
use crate::scratch::Scratch;

/// Cuts a line into tokens with their texts, which replace the contents of `out`. The error is the
/// byte offset of the first byte that begins no token, or that begins a 65th one.
pub fn tokenize_line<'a>(line: &'a [u8], out: &mut Scratch<Piece<'a>, 64>) -> Result<(), usize>
    ensures pieces { GivesTokenTexts result
        (map piece_of out.new.items) (pieces_of_tokens line.now (tokens_of line.now)) }
    ensures few { length out.new.items ≤ 64 }
{
    out.clear();
    let mut at = 0;
    'cut: while at < line.len() {
        match longest_token_at(line, at) {
            Front::End => return Ok(()),
            Front::Blank => at += 1,
            Front::Bad => return Err(at),
            Front::Token(kind, len) => {
                if out.is_full() {
                    return Err(at);
                }
                out.push(piece_at(line, kind, at, len));
                at += len;
            }
        }
    }
    Ok(())
}

// The token of this kind at the byte offset `at` of a line, with its text of `len` bytes.
fn piece_at(line: &[u8], kind: TokenKind, at: usize, len: usize) -> Piece<'_>
    requires { at + len ≤ length line.now }
    ensures { piece_of result ≡ piece_of_token line.now (token kind at len) }
{
    Piece {
        kind,
        text: &line[at..at + len],
    }
}
