// The rules that depend on the earlier lines or on the whole source.
ghost use Rattle.std.specs.Prelude.{◌≡◌};
ghost use Rattle.tc_isa.specs.Relocations.{is_relocation_kind};

use crate::draft::{Draft, MOST_RELOCS, MOST_SECTIONS};
use crate::encode::first_assembled_bytes;
use crate::sections::section_number;
use crate::symbols::Symbols;
use tc_isa::{Fields, REL24, WORD32};
use tc_stmt::{
    BAD_NAME, Item, LABEL_TWICE, NO_RULE, NO_SECTION, PAST_LIMITS, Reference, UNDEFINED_GLOBAL,
    is_source_name, reference_to,
};

// The most symbols of a source.
const MOST_SYMBOLS: usize = 65535;

/// Whether a reference of this kind needs a relocation; other kinds are resolved at once.
pub(crate) fn is_relocation_kind(kind: u8) -> bool
    ensures { result ≡ is_relocation_kind kind }
{
    REL24 <= kind && kind <= WORD32
}

impl<'a> Draft<'a> {
    ghost use Rattle.tc_stmt.specs.Items.{reference_of, reference_if_any, item_of, code};
    ghost use Rattle.tc_asm.specs.Rules.{has_symbol_room};
    ghost use Rattle.tc_asm.specs.Rules.{rule_broken_by_label, rule_broken_before_section, rule_broken_by_name, rule_broken_by_section_count, rule_broken_by_symbol_count, rule_broken_by_reloc_count, rule_broken_by_byte_count, rule_broken_by_undefined_global, rule_broken_by_reference, rule_broken_by_content, rule_broken_by_item};

    /// Returns rule 8 if the draft has no current section, which labels, instructions and data
    /// need, else `NO_RULE`.
    pub(crate) fn rule_broken_before_section(&self) -> u8
        ensures { result ≡ rule_broken_before_section self.now }
    {
        if self.has_current_section() {
            NO_RULE
        } else {
            NO_SECTION
        }
    }

    /// Whether the draft has room for one more symbol: an object has at most 65,535.
    pub(crate) fn has_symbol_room(&self) -> bool
        ensures { result ≡ has_symbol_room self.now.symbols }
    {
        self.symbols.len() < MOST_SYMBOLS
    }

    /// Returns rule 13 if a symbol of this name would be the draft's 65,536th, else `NO_RULE`.
    pub(crate) fn rule_broken_by_symbol_count(&self, name: &[u8]) -> u8
        ensures { result ≡ rule_broken_by_symbol_count self.now name.now }
    {
        if self.has_symbol_room() || self.symbols.get(name).is_some() {
            NO_RULE
        } else {
            PAST_LIMITS
        }
    }

    /// Returns rule 13 if the relocation that the reference `r` needs would be the draft's
    /// 65,536th, else `NO_RULE`.
    pub(crate) fn rule_broken_by_reloc_count(&self, r: Reference<'a>) -> u8
        ensures { result ≡ rule_broken_by_reloc_count self.now (reference_of r.entry) }
    {
        if is_relocation_kind(r.kind) && self.count >= MOST_RELOCS {
            PAST_LIMITS
        } else {
            NO_RULE
        }
    }

    /// Returns rule 13 if `n` more bytes would exceed the 16,777,216 bytes of all sections of a
    /// draft, else `NO_RULE`.
    pub(crate) fn rule_broken_by_byte_count(&self, n: usize) -> u8
        ensures { result ≡ rule_broken_by_byte_count self.now n }
    {
        if self.has_room(n) {
            NO_RULE
        } else {
            PAST_LIMITS
        }
    }

    /// Checks that the draft may take `size` more bytes, which refer to the symbol `r`, if any.
    /// Returns the lowest-numbered source rule broken, or `NO_RULE`.
    pub(crate) fn rule_broken_by_content(&self, size: usize, r: &Option<Reference<'a>>) -> u8
        ensures { result ≡ rule_broken_by_content self.now size (reference_if_any r.now) }
    {
        let room = self
            .rule_broken_by_byte_count(size)
            .min(self.rule_broken_by_reference(r));
        self.rule_broken_before_section().min(room)
    }

    /// Returns rule 9 if these bytes are no name that a source may use, else `NO_RULE`.
    pub(crate) fn rule_broken_by_name(name: &[u8]) -> u8
        ensures { result ≡ rule_broken_by_name name.now }
    {
        if is_source_name(name) {
            NO_RULE
        } else {
            BAD_NAME
        }
    }

    /// Returns rule 14 if the source's symbols `labels` have no label of this name, else `NO_RULE`.
    pub(crate) fn rule_broken_by_undefined_global(labels: &Symbols<'a>, name: &[u8]) -> u8
        ensures { result ≡ rule_broken_by_undefined_global labels.now name.now }
    {
        if labels.place(name).is_some() {
            NO_RULE
        } else {
            UNDEFINED_GLOBAL
        }
    }

    /// Returns the lowest-numbered source rule that an item breaks if added to this draft next, or
    /// `NO_RULE`. `labels` are the symbols of the whole source.
    #[tactic(auto, unfolding(crate::specs::Rules::rule_broken_by_item))]
    pub(crate) fn rule_broken_by_item(&self, labels: &Symbols<'a>, item: &Item<'a>) -> u8
        ensures { result ≡ rule_broken_by_item labels.now self.now (item_of item.now) }
    {
        match item {
            Item::Label(name) => {
                let stands = self
                    .rule_broken_by_label(*name)
                    .min(self.rule_broken_before_section());
                stands.min(Self::rule_broken_by_name(*name).min(self.rule_broken_by_symbol_count(
                    *name,
                )))
            }
            Item::Section(name) => Self::rule_broken_by_name(*name).min(
                self.rule_broken_by_section_count(*name),
            ),
            Item::Global(name) => {
                let room = self
                    .rule_broken_by_symbol_count(*name)
                    .min(Self::rule_broken_by_undefined_global(labels, *name));
                Self::rule_broken_by_name(*name).min(room)
            }
            Item::Code(row, fields) => self.rule_broken_by_code(labels, *row, fields, &None),
            Item::Linked(row, kind, minus, fields, size, name) => {
                let r = Some(reference_to(*kind, *name, *minus, *size));
                self.rule_broken_by_code(labels, *row, fields, &r)
            }
            Item::Data(len, bytes) => self.rule_broken_by_content(
                first_assembled_bytes(bytes, *len).len(),
                &None,
            ),
            Item::Word(len, minus, size, name) => {
                let r = Some(reference_to(WORD32, *name, *minus, *size));
                self.rule_broken_by_content(first_assembled_bytes(&[0; 4], *len).len(), &r)
            }
            Item::Zeros(n) => self
                .rule_broken_before_section()
                .min(self.rule_broken_by_byte_count(*n as usize)),
        }
    }

    // Returns rule 13 if the draft has no room for the symbol of a reference or for its relocation,
    // else `NO_RULE`.
    fn rule_broken_by_reference(&self, r: &Option<Reference<'a>>) -> u8
        ensures { result ≡ rule_broken_by_reference self.now (reference_if_any r.now) }
    {
        match r {
            None => NO_RULE,
            Some(r) => self
                .rule_broken_by_symbol_count(r.name)
                .min(self.rule_broken_by_reloc_count(*r)),
        }
    }

    // Returns rule 7 if the draft has a label of this name already, else `NO_RULE`.
    fn rule_broken_by_label(&self, name: &[u8]) -> u8
        ensures { result ≡ rule_broken_by_label self.now name.now }
    {
        if self.symbols.place(name).is_some() {
            LABEL_TWICE
        } else {
            NO_RULE
        }
    }

    // Returns rule 13 if a section of this name would be the draft's 65th, else `NO_RULE`.
    fn rule_broken_by_section_count(&self, name: &[u8]) -> u8
        ensures { result ≡ rule_broken_by_section_count self.now name.now }
    {
        let known = section_number(&self.parts, name) < self.parts.len();
        if known || self.parts.len() < MOST_SECTIONS {
            NO_RULE
        } else {
            PAST_LIMITS
        }
    }

    // Returns the lowest-numbered source rule that the draft's next instruction breaks, or
    // `NO_RULE`. `row` is its row in the instruction table, `r` its symbol, if any.
    #[inline(never)]
    #[tactic(auto, unfolding(crate::specs::Rules::rule_broken_by_item))]
    fn rule_broken_by_code(
        &self,
        labels: &Symbols<'a>,
        row: u8,
        fields: &Fields,
        r: &Option<Reference<'a>>,
    ) -> u8
        ensures { result ≡ rule_broken_by_item labels.now self.now
            (code row fields.now (reference_if_any r.now)) }
    {
        let target = self.resolve_instruction(labels, row, fields, r).rule;
        let code = self.code_bytes(labels, row, fields, r);
        let len = first_assembled_bytes(&code.bytes, code.len).len();
        target.min(self.rule_broken_by_content(len, r))
    }
}
