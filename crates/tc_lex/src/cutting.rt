// Cuts a line into tokens.
ghost use Rattle.std.specs.Prelude.{◌<◌};
ghost use Rattle.tc_lex.specs.Cut.{tokens_of, GivesTokens, GivesTokensInto, AreTokensOrFault};

use crate::kinds::{Front, Token};
use crate::longest_token::longest_token_at;
use arrayvec::ArrayVec;

/// Replaces the contents of `out` by the tokens of a line. The error is the byte offset of the
/// first byte that begins no token, or that begins a 65th one. Blanks, tabs and a comment, from `#`
/// on, are skipped.
pub fn tokens_into(line: &[u8], out: &mut ArrayVec<Token, 64>) -> Result<(), usize>
    ensures { GivesTokensInto result out.new.items (tokens_of line.now) }
{
    out.clear();
    let mut at = 0;
    'cut: while at < line.len() {
        match longest_token_at(line, at) {
            Front::End => return Ok(()),
            Front::Blank => at += 1,
            Front::Bad => return Err(at),
            Front::Token(kind, len) => {
                if out.is_full() {
                    return Err(at);
                }
                out.push(Token {
                    kind,
                    from: at,
                    to: at + len,
                });
                at += len;
            }
        }
    }
    Ok(())
}

/// The tokens of a line. The error is the byte offset of the first byte that begins no token, or
/// that begins a 65th one. Blanks, tabs and a comment, from `#` on, are skipped.
pub fn tokens(line: &[u8]) -> Result<ArrayVec<Token, 64>, usize>
    ensures cut { GivesTokens result (tokens_of line.now) }

    // The tokens are slices of the line in order, each the longest at its place. Between them are
    // only blanks and tabs.
    ensures read { AreTokensOrFault line.now result }
{
    let mut out = ArrayVec::new();
    match tokens_into(line, &mut out) {
        Ok(()) => Ok(out),
        Err(at) => Err(at),
    }
}
