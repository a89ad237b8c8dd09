// Names in a source, and the rule that a symbol as an operand breaks.
ghost use Rattle.std.specs.Prelude.{◌≡◌, ◌<◌, ◌^◌};
ghost use Rattle.tc_stmt.specs.Names.{is_source_name, rule_broken_by_symbol};
ghost use Rattle.tc_stmt.specs.SourceRules.{no_rule};
ghost use Rattle.tc_lex.specs.Operands.{value_of};

use crate::source_rules::{BAD_NAME, NO_RULE, WIDE_NUMBER};
use tc_lex::{Value, is_same_text};
use tcd_base::{are_name_bytes, is_name_start};

/// Whether bytes are a name that a source may use: a word of at most 64 bytes, but not a lone `.`.
#[tactic(auto, unfolding(crate::specs::Names::is_source_name), using(crate::proofs::Named::some_name))]
pub fn is_source_name(bytes: &[u8]) -> bool
    ensures { result ≡ is_source_name bytes.now }
{
    1 <= bytes.len()
        && bytes.len() <= 64
        && is_name_start(bytes[0])
        && are_name_bytes(bytes)
        && !is_same_text(bytes, ".")
}

/// Returns rule 5 if an operand adds 2^32 or more to its symbol, rule 9 if the symbol's name is
/// bad, else `NO_RULE`.
#[tactic(auto, unfolding(crate::specs::Names::rule_broken_by_symbol))]
pub fn rule_broken_by_symbol(v: &Value<'_>) -> u8
    ensures value { result ≡ rule_broken_by_symbol (value_of v.now) }
    ensures small { result ≡ no_rule → v.now.size < 2 ^ 32 }
{
    if v.wide || 0x1_0000_0000 <= v.size {
        WIDE_NUMBER
    } else if is_source_name(v.name) {
        NO_RULE
    } else {
        BAD_NAME
    }
}
