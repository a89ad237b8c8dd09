// Adds items to a draft, with the least rule that each of them breaks.
ghost use Rattle.std.specs.Prelude.{◌≡◌, ◌<◌, map, min, IfOk, OnOk, fold};
ghost use Rattle.tc_stmt.specs.Items.{reference_of, item_of};
ghost use Rattle.tc_asm.specs.Drafts.{draft_after_item};
ghost use Rattle.tc_asm.specs.KnownSymbols.{without_symbols_if, rule_broken_in_second_pass};

use crate::draft::Draft;
use crate::encode::{assembled_code, first_assembled_bytes};
use crate::sections::grow_section;
use crate::symbols::Symbols;
use std::alloc::{AllocError, Global};
use tc_isa::{Fields, WORD32};
use tc_stmt::{Item, NO_RULE, Reference, is_source_name, reference_to};

impl<'a> Draft<'a> {
    ghost use Rattle.std.specs.Prelude.{length, None, Some, OnOk, IfOk};
    ghost use Rattle.tc_stmt.specs.Items.{reference_of, item_of, label, global, code};
    ghost use Rattle.tc_asm.specs.Drafts.{draft_after_item, with_bytes_if_room, with_reference, with_content};
    ghost use Rattle.tc_asm.specs.Rules.{rule_broken_by_content, rule_broken_by_item};
    ghost use Rattle.tc_asm.specs.KnownSymbols.{without_symbols, without_symbols_if};

    /// Adds an item to the draft of an object, and returns the lowest-numbered source rule broken,
    /// or `NO_RULE`. If `known`, the first pass found all symbols, `labels`, and none is added.
    pub(crate) fn check_and_add_item(
        &mut self,
        alloc: Global,
        labels: &Symbols<'a>,
        known: bool,
        item: &Item<'a>,
    ) -> Result<u8, AllocError>
        ensures draft { OnOk result (without_symbols_if known self.new
            ≡ without_symbols_if known (draft_after_item labels.now self.old (item_of item.now))) }
        ensures rule { IfOk result (λ rule. rule ≡ rule_broken_by_item labels.now
            (without_symbols_if known self.old) (item_of item.now)) }
    {
        if known {
            self.check_and_add_item_without_symbol(alloc, labels, item)
        } else {
            self.check_and_add_item_with_symbol(alloc, labels, item)
        }
    }

    // Adds an item to the draft, but no symbol, since the first pass found all: `labels`. Returns
    // the lowest-numbered source rule broken, or `NO_RULE`.
    fn check_and_add_item_without_symbol(
        &mut self,
        alloc: Global,
        labels: &Symbols<'a>,
        item: &Item<'a>,
    ) -> Result<u8, AllocError>
        ensures draft { OnOk result
            (without_symbols self.new ≡ without_symbols
            (draft_after_item labels.now self.old (item_of item.now))) }
        ensures rule { IfOk result (λ rule. rule
            ≡ rule_broken_by_item labels.now (without_symbols self.old) (item_of item.now)) }
    {
        match item {
            Item::Label(name) => Ok(self.rule_broken_by_known_label(labels, *name)),
            Item::Global(name) => Ok(self.rule_broken_by_known_global(labels, *name)),
            Item::Code(row, fields) => self.check_and_add_code(labels, *row, fields),
            Item::Linked(row, kind, minus, fields, size, name) => {
                let r = reference_to(*kind, *name, *minus, *size);
                self.check_and_add_code_with_symbol(labels, *row, fields, r)
            }
            Item::Data(len, bytes) => self.check_and_add_bytes(first_assembled_bytes(bytes, *len)),
            Item::Word(len, minus, size, name) => {
                let r = reference_to(WORD32, *name, *minus, *size);
                self.check_and_add_reference(first_assembled_bytes(&[0; 4], *len), r)
            }
            Item::Section(_) => self.check_and_add_item_with_symbol(alloc, labels, item),
            Item::Zeros(_) => self.check_and_add_item_with_symbol(alloc, labels, item),
        }
    }

    /// Checks a label in the second pass, when only its section and its name can be wrong: the
    /// first pass checked the symbols. Returns the lowest-numbered rule broken, or `NO_RULE`.
    fn rule_broken_by_known_label(&self, labels: &Symbols<'a>, name: &[u8]) -> u8
        ensures { result ≡ rule_broken_by_item labels.now (without_symbols self.now)
            (label name.now) }
    {
        let section = NO_RULE.min(self.rule_broken_before_section());
        section.min(Self::rule_broken_by_name(name).min(NO_RULE))
    }

    /// Checks a name in `.global` in the second pass, when the symbols are known to fit: the name
    /// may be bad or undefined. Returns the lowest-numbered rule broken, or `NO_RULE`.
    fn rule_broken_by_known_global(&self, labels: &Symbols<'a>, name: &[u8]) -> u8
        ensures { result ≡ rule_broken_by_item labels.now (without_symbols self.now)
            (global name.now) }
    {
        let room = NO_RULE.min(Self::rule_broken_by_undefined_global(labels, name));
        Self::rule_broken_by_name(name).min(room)
    }

    // Adds an instruction without a symbol, of row `row` of the instruction table, to the draft.
    // Returns the lowest-numbered source rule broken, or `NO_RULE`.
    #[inline(always)]
    fn check_and_add_code(
        &mut self,
        labels: &Symbols<'a>,
        row: u8,
        fields: &Fields,
    ) -> Result<u8, AllocError>
        ensures draft { OnOk result
            (self.new ≡ draft_after_item labels.now self.old (code row fields.now None)) }
        ensures rule { IfOk result
            (λ rule. rule ≡ rule_broken_by_item labels.now self.old (code row fields.now None)) }
    {
        let code = assembled_code(row, fields);
        let rule = self.check_and_add_bytes(first_assembled_bytes(&code.bytes, code.len))?;
        // There is no target that breaks a rule.
        Ok(NO_RULE.min(rule))
    }

    // Adds an instruction with the symbol `r`, of row `row` of the instruction table, to the draft.
    // Returns the lowest-numbered source rule broken, or `NO_RULE`.
    #[tactic(auto, unfolding(crate::specs::Rules::rule_broken_by_item, crate::specs::Drafts::draft_after_item, crate::specs::Drafts::code_bytes))]
    fn check_and_add_code_with_symbol(
        &mut self,
        labels: &Symbols<'a>,
        row: u8,
        fields: &Fields,
        r: Reference<'a>,
    ) -> Result<u8, AllocError>
        ensures draft { OnOk result (without_symbols self.new ≡ without_symbols
            (draft_after_item labels.now self.old
            (code row fields.now (Some (reference_of r.entry))))) }
        ensures rule { IfOk result (λ rule. rule ≡ rule_broken_by_item labels.now
            (without_symbols self.old) (code row fields.now (Some (reference_of r.entry)))) }
    {
        let found = self.resolve_instruction(labels, row, fields, &Some(r));
        let code = assembled_code(row, &found.fields);
        let rule = self.check_and_add_reference(first_assembled_bytes(&code.bytes, code.len), r)?;
        Ok(found.rule.min(rule))
    }

    // Adds bytes, and their relocation against the symbol `r`, which the first pass found, to the
    // draft. Returns the lowest-numbered source rule broken, or `NO_RULE`.
    #[inline(never)]
    fn check_and_add_reference(&mut self, bytes: &[u8], r: Reference<'a>) -> Result<u8, AllocError>
        ensures draft { OnOk result (without_symbols self.new
            ≡ without_symbols (with_content self.old bytes.now (Some (reference_of r.entry)))) }
        ensures rule { IfOk result (λ rule. rule ≡ rule_broken_by_content (without_symbols self.old)
            (length bytes.now) (Some (reference_of r.entry))) }
    {
        let room = self
            .rule_broken_by_byte_count(bytes.len())
            .min(NO_RULE.min(self.rule_broken_by_reloc_count(r)));
        let rule = self.rule_broken_before_section().min(room);
        self.add_use_of_known_symbol(bytes.len(), r)?;
        self.add_bytes_if_room(bytes)?;
        Ok(rule)
    }

    // Adds an item, with its symbol if there is one, to the draft of an object. Returns the
    // lowest-numbered source rule broken, or `NO_RULE`.
    fn check_and_add_item_with_symbol(
        &mut self,
        alloc: Global,
        labels: &Symbols<'a>,
        item: &Item<'a>,
    ) -> Result<u8, AllocError>
        ensures draft { OnOk result
            (self.new ≡ draft_after_item labels.now self.old (item_of item.now)) }
        ensures rule { IfOk result
            (λ rule. rule ≡ rule_broken_by_item labels.now self.old (item_of item.now)) }
    {
        let rule = self.rule_broken_by_item(labels, item);
        self.add_item(alloc, labels, item)?;
        Ok(rule)
    }

    // Adds bytes without a symbol, if there is room. Returns the source rule broken, or `NO_RULE`.
    #[inline(never)]
    #[tactic(auto, unfolding(crate::specs::Drafts::with_bytes_if_room))]
    fn check_and_add_bytes(&mut self, bytes: &[u8]) -> Result<u8, AllocError>
        ensures draft { OnOk result (self.new ≡ with_bytes_if_room self.old bytes.now) }
        ensures rule { IfOk result
            (λ rule. rule ≡ rule_broken_by_content self.old (length bytes.now) None) }
    {
        if self.has_current_section() && self.has_room(bytes.len()) {
            grow_section(&mut self.parts, self.section, bytes)?;
            self.total += bytes.len();
            return Ok(NO_RULE);
        }
        Ok(self.rule_broken_by_content(bytes.len(), &None))
    }

    /// Records a relocation, if one is needed, of the draft's next `size` bytes against the symbol
    /// in `r`, which the first pass found. A bad name changes nothing.
    #[inline(always)]
    fn add_use_of_known_symbol(&mut self, size: usize, r: Reference<'a>) -> Result<(), AllocError>
        ensures { OnOk result (without_symbols self.new
            ≡ without_symbols (with_reference self.old size (Some (reference_of r.entry)))) }
    {
        if is_source_name(r.name) {
            self.add_reloc_use(size, r)?;
        }
        Ok(())
    }
}

/// Adds items to the draft of an object, and returns the lowest-numbered source rule broken, or
/// `NO_RULE`. If `known`, the first pass found all symbols, `labels`, and none is added.
pub(crate) fn check_and_add_items<'a>(
    alloc: Global,
    draft: &mut Draft<'a>,
    labels: &Symbols<'a>,
    known: bool,
    items: &[Item<'a>],
) -> Result<u8, AllocError>
    ensures draft { OnOk result (without_symbols_if known draft.new ≡ without_symbols_if known
        (fold (draft_after_item labels.now) draft.old (map item_of items.now))) }
    ensures rule { IfOk result (λ rule. rule
        ≡ rule_broken_in_second_pass known labels.now draft.old (map item_of items.now)) }
{
    let mut rule = NO_RULE;
    for item in items {
        rule = draft
            .check_and_add_item(alloc, labels, known, item)?
            .min(rule);
    }
    Ok(rule)
}
