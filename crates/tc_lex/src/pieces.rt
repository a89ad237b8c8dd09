// Tokens with their texts.
ghost use Rattle.std.specs.Prelude.{◌≡◌, ◌<◌, map, length, true};
ghost use Rattle.tc_lex.specs.Pieces.{piece_of, is_token_kind, token_text, kind_index};

use crate::TokenKind;
use crate::kinds::kind_index;

/// A token and its text.
#[derive(Clone, Copy, Default)]
pub struct Piece<'a> {
    /// The kind of the token.
    pub kind: TokenKind,
    /// Its bytes in the line.
    pub text: &'a [u8],
}

/// Whether token `i` of the tokens `ps` of a line exists and is of this kind.
#[tactic(auto, unfolding(crate::specs::Pieces::is_token_kind))]
pub fn is_token_kind(ps: &[Piece], i: usize, kind: TokenKind) -> bool
    ensures value { result ≡ is_token_kind (map piece_of ps.now) i kind }
    ensures there { result ≡ true → i < length ps.now }
{
    if i < ps.len() {
        kind_index(ps[i].kind) == kind_index(kind)
    } else {
        false
    }
}

/// The text of token `i` of the tokens `ps` of a line, and an empty text if there is no such token.
#[tactic(auto, unfolding(crate::specs::Pieces::token_text))]
pub fn token_text<'a>(ps: &[Piece<'a>], i: usize) -> &'a [u8]
    ensures { result.now ≡ token_text (map piece_of ps.now) i }
{
    if i < ps.len() { ps[i].text } else { &[] }
}
