// Public laws of listings: assembling a listing gives the image again.
ghost use Rattle.std.specs.Prelude.{◌≡◌, ◌<◌, ◌^◌, ◌++◌, ◌∷◌, ℕ, suc, true, Bool, if◌then◌else◌, ◌+◌, List, length, Ok, Some, option_map};
ghost use Rattle.std.specs.Fmt.{decimal};
ghost use Rattle.std.specs.List.{list_all};
ghost use Rattle.tcd_base.specs.NameBytes.{is_name_byte, is_name_start};
ghost use Rattle.tc_lex.specs.Bytes.{is_digit};
ghost use Rattle.tc_lex.specs.Cut.{first_token_of};
ghost use Rattle.tc_lex.specs.declared.kinds.TokenKind.{TokenKind};
ghost use Rattle.tc_lex.specs.declared.kinds.TokenKind.TheVariants as kind;
ghost use Rattle.tc_lex.specs.declared.kinds.Front.TheVariants.{Token};
ghost use Rattle.tc_isa.specs.Insts.{InstData, IsInst, inst_fields};
ghost use Rattle.tc_lex.specs.Numbers.{token_number};
ghost use Rattle.tc_stmt.specs.RowFields.{zero_fields};
ghost use Rattle.tc_stmt.specs.OperandForms.{register_number};
ghost use Rattle.tc_stmt.specs.StatementRow.{row_of_statement};
ghost use Rattle.tc_disasm.specs.Texts.{hex_literal, register_text};
ghost use Rattle.tc_disasm.specs.Tokens.{printed_token, printed_operands};
ghost use Rattle.tc_disasm.specs.Lexed.{IsTokenEnd, listing_tokens};
ghost use Rattle.tc_disasm.specs.Assembled.{EveryListingReadsBack};

/// The numbers, addresses and registers of a listing are read as the values that were printed.
pub fn numbers_read_back()
    ensures decimals { (n : ℕ) → n < 2 ^ 64 → token_number (decimal n) ≡ Some n }
    ensures addresses { (x : ℕ) → x < 2 ^ 32 → token_number (hex_literal x) ≡ Some x }
    ensures registers { (bank : Bool) (n : ℕ) → n < 16
        → register_number (register_text bank n) ≡ (if bank then 16 else 0) + n }
{}

/// A word or decimal number at the start of a text is its first token, and the tokens of the rest
/// follow.
pub fn tokens_read_back()
    ensures words { (c : ℕ) (cs rest : List ℕ) → is_name_start c ≡ true
        → list_all is_name_byte (c ∷ cs) ≡ true
        → IsTokenEnd rest → first_token_of ((c ∷ cs) ++ rest)
        ≡ Token kind.Word (length (c ∷ cs)) }
    ensures digits { (c : ℕ) (cs rest : List ℕ) → list_all is_digit (c ∷ cs) ≡ true
        → IsTokenEnd rest
        → first_token_of ((c ∷ cs) ++ rest) ≡ Token kind.Number (length (c ∷ cs)) }
    ensures fronts { (k : TokenKind) (c : ℕ) (cs rest : List ℕ) (room : ℕ)
        → first_token_of ((c ∷ cs) ++ rest) ≡ Token k (length (c ∷ cs))
        → listing_tokens ((c ∷ cs) ++ rest) (suc room) 0
        ≡ option_map (λ ps. printed_token k (c ∷ cs) ∷ ps) (listing_tokens rest room 0) }
{}

/// The name and operands that a listing prints for an instruction are parsed as that instruction's
/// row and fields, with no symbol or error.
pub fn statements_read_back()
    ensures { (i : InstData) (is : IsInst i)
        → row_of_statement is.row.name (printed_operands is.row (inst_fields i))
        ≡ Ok (i.row, record zero_fields { fields = inst_fields i }) }
{}

/// The listing of an image can be assembled: it is short enough for `assemble`, and no line breaks
/// a rule. The sections of its object are the image's segments in ascending order of addresses.
pub fn listings_read_back()
    ensures { EveryListingReadsBack }
{}
