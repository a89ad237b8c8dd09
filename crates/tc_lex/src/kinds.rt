// The types of tokens.
ghost use Rattle.std.specs.Prelude.{◌≡◌};
ghost use Rattle.tc_lex.specs.Pieces.{kind_index};

/// The kind of a token.
#[derive(Clone, Copy, Debug, PartialEq, Eq, Default)]
pub enum TokenKind {
    /// Letters, digits, `_`, `.` and `$`; the first byte is no digit.
    #[default]
    Word,
    /// Decimal digits, or `0x` and hex digits.
    Number,
    /// `,`
    Comma,
    /// `:`
    Colon,
    /// `[`
    Open,
    /// `]`
    Close,
    /// `+`
    Plus,
    /// `-`
    Minus,
}

/// A token: the bytes `from..to` of its line.
#[derive(Clone, Copy, Debug, PartialEq, Eq, Default)]
pub struct Token {
    /// The kind of the token.
    pub kind: TokenKind,
    /// The offset of its first byte in the line.
    pub from: usize,
    /// The offset after its last byte.
    pub to: usize,
}

/// What the rest of a line begins with.
#[derive(Clone, Copy, Debug, PartialEq, Eq)]
pub enum Front {
    /// The end of the line, or a comment.
    End,
    /// A blank or a tab.
    Blank,
    /// A byte that begins no token.
    Bad,
    /// A token of this kind, with its length in bytes.
    Token(TokenKind, usize),
}

/// A number for each kind of token, so that kinds can be compared.
#[tactic(auto, unfolding(crate::specs::Pieces::kind_index))]
pub(crate) fn kind_index(kind: TokenKind) -> u8
    ensures { result ≡ kind_index kind }
{
    match kind {
        TokenKind::Word => 0,
        TokenKind::Number => 1,
        TokenKind::Comma => 2,
        TokenKind::Colon => 3,
        TokenKind::Open => 4,
        TokenKind::Close => 5,
        TokenKind::Plus => 6,
        TokenKind::Minus => 7,
    }
}
