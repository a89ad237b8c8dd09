// The draft of an object: the sections and symbols of the lines so far.
use crate::encode::{assembled_code_size, first_assembled_bytes};
use crate::rules::is_relocation_kind;
use crate::sections::{
    Part, add_section_use, add_section_zeros, grow_section, section_len, section_number,
};
use crate::symbols::{Place, Symbols};
use std::alloc::{AllocError, Global};
use std::marker::Model;
use tc_isa::{Fields, WORD32};
use tc_stmt::{Item, Reference, is_source_name, reference_to};

/// The number of the current section, all sections and symbols so far, and the numbers of bytes and
/// relocations in all sections.
#[derive(Drop)]
pub struct Draft<'a> {
    /// The number of the current section, or `NO_NUMBER`.
    pub section: usize,
    /// The sections so far, in the order of their first `.section`.
    pub parts: Vec<Part<'a>>,
    /// The symbols so far, in the order of first use.
    pub symbols: Symbols<'a>,
    /// The number of bytes in all sections.
    pub total: usize,
    /// The number of relocations in all sections.
    pub count: usize,
}

impl<'a> Model for Draft<'a> {
    ghost use Rattle.std.specs.Prelude.{map};
    ghost use Rattle.tc_asm.specs.Drafts.{DraftData};
    ghost use Rattle.tc_asm.specs.DraftViews.{draft_section_of};

    ghost Value = { DraftData };

    ghost view = { λ d. record { section = d.section; parts = map draft_section_of d.parts.items; symbols = d.symbols; total = d.total; count = d.count } };
}

/// The most bytes of all sections together.
pub(crate) const MOST_BYTES: usize = 0x100_0000;

/// The most relocations of a source.
pub(crate) const MOST_RELOCS: usize = 65535;

/// The most sections of a source.
pub(crate) const MOST_SECTIONS: usize = 64;

// The number of the current section before the first `.section`: above the number of each section.
const NO_NUMBER: usize = 64;

impl<'a> Draft<'a> {
    ghost use Rattle.std.specs.Prelude.{◌≡◌, [], OnOk, IfOk, Some, replicate};
    ghost use Rattle.tc_stmt.specs.Items.{reference_of, reference_if_any, item_of, label, code, bytes as data_item};
    ghost use Rattle.tc_asm.specs.ItemInvariants.{IsCodeOfSomeLine, IsDataOfSomeLine, IsItemOfSomeLine, SymbolIsNamedIfAny};
    ghost use Rattle.tc_asm.specs.AlikeDrafts.{TracksSizesAndSymbols};
    ghost use Rattle.tc_asm.specs.Drafts.{empty_draft, next_byte_offset, has_current_section, has_room, with_label, with_current_section, with_global, with_bytes_if_room, with_reloc_use, with_reference, with_symbol_of_reference, with_content, draft_after_item};
    ghost use Rattle.tc_asm.specs.Symbols.{with_name};
    ghost use Rattle.tc_asm.specs.KnownSymbols.{is_new_if_label};

    /// An empty draft of an object: no section, no symbol.
    pub fn new(alloc: Global) -> Draft<'a>
        ensures { result ≡ empty_draft }
    {
        Draft {
            section: NO_NUMBER,
            parts: Vec::new(alloc),
            symbols: Symbols::new(alloc),
            total: 0,
            count: 0,
        }
    }

    /// The offset of the next byte in the current section, and 0 if there is no current section.
    #[tactic(auto, unfolding(crate::specs::Drafts::next_byte_offset))]
    pub fn next_byte_offset(&self) -> usize
        ensures { result ≡ next_byte_offset self.now }
    {
        if self.section < self.parts.len() {
            section_len(&self.parts[self.section])
        } else {
            0
        }
    }

    /// Whether the draft of an object has a current section.
    pub fn has_current_section(&self) -> bool
        ensures { result ≡ has_current_section self.now }
    {
        self.section < self.parts.len()
    }

    /// Whether `n` more bytes keep all sections of the draft together within 16,777,216 bytes.
    pub fn has_room(&self, n: usize) -> bool
        ensures { result ≡ has_room self.now n }
    {
        n <= MOST_BYTES && self.total <= MOST_BYTES - n
    }

    /// Adds bytes at the end of the draft's current section, if there is one that has room.
    #[inline(always)]
    #[tactic(auto, unfolding(crate::specs::Drafts::with_bytes_if_room))]
    pub(crate) fn add_bytes_if_room(&mut self, bytes: &[u8]) -> Result<(), AllocError>
        ensures { OnOk result (self.new ≡ with_bytes_if_room self.old bytes.now) }
    {
        if self.has_current_section() && self.has_room(bytes.len()) {
            grow_section(&mut self.parts, self.section, bytes)?;
            self.total += bytes.len();
        }
        Ok(())
    }

    /// Records a relocation of the draft's next `size` bytes against the symbol in `r`. Nothing
    /// changes if none is needed, `size` isn't 4, or the draft has no section or room.
    #[inline(always)]
    #[tactic(auto, unfolding(crate::specs::Drafts::with_reloc_use))]
    pub(crate) fn add_reloc_use(&mut self, size: usize, r: Reference<'a>) -> Result<(), AllocError>
        ensures { OnOk result (self.new ≡ with_reloc_use self.old size (reference_of r.entry)) }
    {
        if self.has_current_section()
            && self.has_room(size)
            && size == 4
            && is_relocation_kind(r.kind)
            && self.count < MOST_RELOCS
        {
            let offset = self.next_byte_offset();
            add_section_use(&mut self.parts, self.section, offset, r)?;
            self.count += 1;
        }
        Ok(())
    }

    /// Adds bytes, with their symbol `r` if any, at the end of the draft's current section.
    pub(crate) fn add_content(
        &mut self,
        bytes: &[u8],
        r: &Option<Reference<'a>>,
    ) -> Result<(), AllocError>
        ensures { OnOk result
            (self.new ≡ with_content self.old bytes.now (reference_if_any r.now)) }
    {
        self.add_reference(bytes.len(), r)?;
        self.add_bytes_if_room(bytes)
    }

    /// Extends the draft by an item of the source. `labels` are the symbols of the whole source.
    #[tactic(auto, unfolding(crate::specs::Drafts::draft_after_item))]
    pub fn add_item(
        &mut self,
        alloc: Global,
        labels: &Symbols<'a>,
        item: &Item<'a>,
    ) -> Result<(), AllocError>
        ensures { OnOk result (self.new ≡ draft_after_item labels.now self.old (item_of item.now)) }
    {
        match item {
            Item::Label(name) => {
                self.add_label(*name)?;
                Ok(())
            }
            Item::Section(name) => self.enter_section(alloc, *name),
            Item::Global(name) => self.make_global(*name),
            Item::Code(row, fields) => self.add_code(labels, *row, fields, &None),
            Item::Linked(row, kind, minus, fields, size, name) => {
                let r = Some(reference_to(*kind, *name, *minus, *size));
                self.add_code(labels, *row, fields, &r)
            }
            Item::Data(len, bytes) => self.add_content(first_assembled_bytes(bytes, *len), &None),
            Item::Word(len, minus, size, name) => {
                let r = Some(reference_to(WORD32, *name, *minus, *size));
                self.add_content(first_assembled_bytes(&[0; 4], *len), &r)
            }
            Item::Zeros(n) => self.add_zeros_if_room(*n as usize),
        }
    }

    /// Adds an item to the first pass's draft, with zeros instead of its bytes. Returns false if
    /// the item is a label that the draft has already. `none` is an empty table of symbols.
    pub fn scan_item(
        &mut self,
        alloc: Global,
        none: &Symbols<'a>,
        item: &Item<'a>,
    ) -> Result<bool, AllocError>
        requires none { none.now ≡ [] }
        requires added { IsItemOfSomeLine (item_of item.now) }
        ensures alike { OnOk result (TracksSizesAndSymbols (item_of item.now) self.old self.new) }
        ensures new { IfOk result
            (λ new. new ≡ is_new_if_label self.old.symbols (item_of item.now)) }
    {
        match item {
            Item::Label(name) => return self.scan_label(*name),
            Item::Code(row, fields) => self.scan_code(*row, fields, &None)?,
            Item::Linked(row, kind, minus, fields, size, name) => {
                let r = Some(reference_to(*kind, *name, *minus, *size));
                self.scan_code(*row, fields, &r)?
            }
            Item::Data(len, bytes) => self.scan_data(first_assembled_bytes(bytes, *len), &None)?,
            Item::Word(len, minus, size, name) => {
                let r = Some(reference_to(WORD32, *name, *minus, *size));
                self.scan_data(first_assembled_bytes(&[0; 4], *len), &r)?
            }
            Item::Section(_) => self.scan_other_item(alloc, none, item)?,
            Item::Global(_) => self.scan_other_item(alloc, none, item)?,
            Item::Zeros(_) => self.scan_other_item(alloc, none, item)?,
        }
        Ok(true)
    }

    /// Notes in the draft the symbol `r` to which its next `size` bytes refer, if any.
    #[inline(always)]
    #[tactic(auto, unfolding(crate::specs::Drafts::with_reference))]
    fn add_reference(&mut self, size: usize, r: &Option<Reference<'a>>) -> Result<(), AllocError>
        ensures { OnOk result (self.new ≡ with_reference self.old size (reference_if_any r.now)) }
    {
        match r {
            None => Ok(()),
            Some(r) => self.add_named_reference(size, r),
        }
    }

    /// Notes in the draft the symbol `r` to which its next `size` bytes refer, and a relocation if
    /// the bytes need one. A bad name changes nothing.
    #[inline(never)]
    #[tactic(auto, unfolding(crate::specs::Drafts::with_reference))]
    fn add_named_reference(&mut self, size: usize, r: &Reference<'a>) -> Result<(), AllocError>
        ensures { OnOk result
            (self.new ≡ with_reference self.old size (Some (reference_of r.now))) }
    {
        if is_source_name(r.name) {
            self.symbols.add_name(r.name)?;
            self.add_reloc_use(size, *r)?;
        }
        Ok(())
    }

    // Adds a label at the draft's next byte, if sources may use the name. Returns false if an
    // earlier label has this name.
    #[inline(never)]
    #[tactic(auto, unfolding(crate::specs::Drafts::with_label))]
    fn add_label(&mut self, name: &'a [u8]) -> Result<bool, AllocError>
        ensures draft { OnOk result (self.new ≡ with_label self.old name.entry.now) }
        ensures new { IfOk result
            (λ new. new ≡ is_new_if_label self.old.symbols (label name.entry.now)) }
    {
        if !is_source_name(name) {
            return Ok(self.symbols.place(name).is_none());
        }
        let place = Place {
            section: self.section,
            offset: self.next_byte_offset(),
        };
        let before = self.symbols.define(name, place)?;
        Ok(before.is_none())
    }

    /// Makes the section of this name the draft's current one, and adds the section if new. A bad
    /// name or a 65th section changes nothing.
    #[inline(never)]
    #[tactic(auto, unfolding(crate::specs::Drafts::with_current_section))]
    fn enter_section(&mut self, alloc: Global, name: &'a [u8]) -> Result<(), AllocError>
        ensures { OnOk result (self.new ≡ with_current_section self.old name.entry.now) }
    {
        if !is_source_name(name) {
            return Ok(());
        }
        let number = section_number(&self.parts, name);
        if number < self.parts.len() {
            self.section = number;
            return Ok(());
        }
        if self.parts.len() < MOST_SECTIONS {
            let bytes = Vec::new(alloc);
            let uses = Vec::new(alloc);
            self.section = self.parts.len();
            self.parts.push(Part {
                name,
                bytes,
                zeros: 0,
                uses,
            })?;
        }
        Ok(())
    }

    /// Makes the symbol of this name global in the draft of an object. A bad name changes nothing.
    #[inline(never)]
    #[tactic(auto, unfolding(crate::specs::Drafts::with_global))]
    fn make_global(&mut self, name: &'a [u8]) -> Result<(), AllocError>
        ensures { OnOk result (self.new ≡ with_global self.old name.entry.now) }
    {
        if is_source_name(name) {
            self.symbols.make_global(name)?;
        }
        Ok(())
    }

    /// Adds the bytes of an instruction of this row of the instruction table to the draft. `r` is
    /// its symbol, if any, and `labels` are the source's symbols, which resolve 16-bit jumps.
    #[inline(never)]
    #[tactic(auto, unfolding(crate::specs::Drafts::draft_after_item))]
    fn add_code(
        &mut self,
        labels: &Symbols<'a>,
        row: u8,
        fields: &Fields,
        r: &Option<Reference<'a>>,
    ) -> Result<(), AllocError>
        ensures { OnOk result
            (self.new ≡ draft_after_item labels.now self.old
            (code row fields.now (reference_if_any r.now))) }
    {
        let code = self.code_bytes(labels, row, fields, r);
        self.add_content(first_assembled_bytes(&code.bytes, code.len), r)
    }

    /// Adds `n` zero bytes, of which only the number is kept, at the end of the draft's current
    /// section. Nothing changes without a section or room.
    #[inline(always)]
    #[tactic(auto, unfolding(crate::specs::Drafts::with_bytes_if_room))]
    fn add_zeros_if_room(&mut self, n: usize) -> Result<(), AllocError>
        ensures { OnOk result (self.new ≡ with_bytes_if_room self.old (replicate n 0)) }
    {
        if self.has_current_section() && self.has_room(n) {
            add_section_zeros(&mut self.parts, self.section, n)?;
            self.total += n;
        }
        Ok(())
    }

    /// Adds a label to the first pass's draft. Returns false if an earlier label has this name.
    fn scan_label(&mut self, name: &'a [u8]) -> Result<bool, AllocError>
        ensures alike { OnOk result
            (TracksSizesAndSymbols (label name.entry.now) self.old self.new) }
        ensures new { IfOk result
            (λ new. new ≡ is_new_if_label self.old.symbols (label name.entry.now)) }
    {
        let new = self.add_label(name)?;
        Ok(new)
    }

    /// Adds zeros for an instruction of row `row`, and its symbol `r`, to the first pass's draft.
    fn scan_code(
        &mut self,
        row: u8,
        fields: &Fields,
        r: &Option<Reference<'a>>,
    ) -> Result<(), AllocError>
        requires { IsCodeOfSomeLine row fields.now (reference_if_any r.now) }
        ensures { OnOk result (TracksSizesAndSymbols
            (code row fields.now (reference_if_any r.now)) self.old self.new) }
    {
        let size = usize::from(assembled_code_size(row));
        self.add_zeros_for_bytes(size, r)?;
        Ok(())
    }

    /// Adds zeros for these bytes of data, and their symbol `r`, to the first pass's draft.
    fn scan_data(&mut self, bytes: &[u8], r: &Option<Reference<'a>>) -> Result<(), AllocError>
        requires { IsDataOfSomeLine bytes.now (reference_if_any r.now) }
        ensures { OnOk result (TracksSizesAndSymbols
            (data_item bytes.now (reference_if_any r.now)) self.old self.new) }
    {
        self.add_zeros_for_bytes(bytes.len(), r)?;
        Ok(())
    }

    /// Adds an item that is a section, a global name or zeros to the first pass's draft. `none` is
    /// an empty table of symbols.
    fn scan_other_item(
        &mut self,
        alloc: Global,
        none: &Symbols<'a>,
        item: &Item<'a>,
    ) -> Result<(), AllocError>
        requires none { none.now ≡ [] }
        requires added { IsItemOfSomeLine (item_of item.now) }
        ensures { OnOk result (TracksSizesAndSymbols (item_of item.now) self.old self.new) }
    {
        self.add_item(alloc, none, item)?;
        Ok(())
    }

    /// Adds `n` zeros to the first pass's draft instead of bytes, and the name of the symbol `r` to
    /// which the bytes refer, if any.
    #[inline(always)]
    fn add_zeros_for_bytes(&mut self, n: usize, r: &Option<Reference<'a>>) -> Result<(), AllocError>
        requires { SymbolIsNamedIfAny (reference_if_any r.now) }
        ensures { OnOk result
            (self.new ≡ with_bytes_if_room (with_symbol_of_reference self.old
            (reference_if_any r.now)) (replicate n 0)) }
    {
        self.add_symbol_of_reference(r)?;
        self.add_zeros_if_room(n)
    }

    // Adds the symbol of the reference, if there is one, to the first pass's draft, which doesn't
    // note uses of symbols.
    #[inline(always)]
    #[tactic(auto, unfolding(crate::specs::Drafts::with_reference))]
    fn add_symbol_of_reference(&mut self, r: &Option<Reference<'a>>) -> Result<(), AllocError>
        requires { SymbolIsNamedIfAny (reference_if_any r.now) }
        ensures { OnOk result
            (self.new ≡ with_symbol_of_reference self.old (reference_if_any r.now)) }
    {
        match r {
            None => Ok(()),
            Some(r) => {
                self.add_symbol_name(r.name)?;
                Ok(())
            }
        }
    }

    /// Adds a name without a label to the symbols of the draft, unless the draft has the name.
    #[inline(never)]
    fn add_symbol_name(&mut self, name: &'a [u8]) -> Result<(), AllocError>
        ensures { OnOk result
            (self.new ≡ record self.old { symbols = with_name self.old.symbols name.entry.now }) }
    {
        self.symbols.add_name(name)?;
        Ok(())
    }
}
