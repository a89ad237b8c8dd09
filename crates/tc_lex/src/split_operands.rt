// Splits the tokens of a statement at its commas into operands.
ghost use Rattle.std.specs.Prelude.{◌≡◌, ◌≤◌, ◌<◌, map, length, position, IfSome, take, drop, ◌+◌, ◌++◌, ◌∷◌, []};
ghost use Rattle.tc_lex.specs.Pieces.{piece_of, kind_index};
ghost use Rattle.tc_lex.specs.Operands.{operand_of, operands_of_tokens, is_comma, operand_of_tokens};

use crate::kinds::kind_index;
use crate::operand::Operand;
use crate::pieces::Piece;
use crate::read_operand::read_operand_into;
use crate::scratch::Scratch;

/// Replaces the contents of `out` by the operands that these tokens of a statement spell.
pub fn operands_into<'a>(ps: &[Piece<'a>], out: &mut Scratch<Operand<'a>, 65>)
    requires { length ps.now ≤ 64 }
    ensures { map operand_of out.new.items ≡ operands_of_tokens (map piece_of ps.now) }
{
    out.clear();
    if ps.is_empty() {
        return;
    }
    let mut rest = ps;
    'parts: while let Some(i) = find_comma(rest) {
        read_operand_before(rest, i, out);
        rest = tokens_after_comma(rest, i);
    }
    read_operand_into(rest, out);
}

/// The index of the first comma among these tokens, or `None`.
fn find_comma(ps: &[Piece]) -> Option<usize>
    ensures value { result ≡ position (λ p. is_comma (piece_of p)) ps.now }
    ensures within { IfSome result (λ i. i < length ps.now) }
{
    ps.iter().position(|p| kind_index(p.kind) == 2)
}

// Reads the operand that the tokens before token `i` spell, and adds the operand to `out`.
fn read_operand_before<'a>(ps: &[Piece<'a>], i: usize, out: &mut Scratch<Operand<'a>, 65>)
    requires place { i ≤ length ps.now }
    requires room { length out.old.items < 65 }
    ensures operands { map operand_of out.new.items
        ≡ map operand_of out.old.items ++ operand_of_tokens (take i (map piece_of ps.now)) ∷ [] }
    ensures one_more { length out.new.items ≡ length out.old.items + 1 }
{
    read_operand_into(&ps[..i], out);
}

// The tokens of a line after token `i`, a comma.
fn tokens_after_comma<'b, 'a>(ps: &'b [Piece<'a>], i: usize) -> &'b [Piece<'a>]
    requires { i < length ps.now }
    ensures { result.now ≡ drop (i + 1) ps.now }
{
    &ps[i + 1..]
}
