// A table of symbols by name, in the order of first use.
ghost use Rattle.std.specs.Prelude.{◌≡◌};
ghost use Rattle.tc_asm.specs.Symbols.{entry_with_label};

use indexmap::IndexMap;
use std::alloc::{AllocError, Global};
use std::marker::Model;

/// A place in a source: the number of a section, and an offset in it.
#[derive(Clone, Copy, Debug, PartialEq, Eq)]
pub struct Place {
    /// The number of the section.
    pub section: usize,
    /// The offset in the section, in bytes.
    pub offset: usize,
}

/// The place of a symbol's label, if it has one, and whether the symbol is global.
#[derive(Clone, Copy, Debug, PartialEq, Eq)]
pub struct Entry {
    /// The place of the label, if the source has defined it so far.
    pub place: Option<Place>,
    /// Whether a `.global` names the symbol.
    pub is_global: bool,
}

// The entry of a name that is used, but not defined so far.
const UNSEEN: Entry = Entry {
    place: None,
    is_global: false,
};

/// Returns a symbol's entry in the assembler's table after a label at `place` defines the symbol.
/// An earlier label keeps its place.
fn entry_with_label(entry: Entry, place: Place) -> Entry
    ensures { result ≡ entry_with_label entry place }
{
    if entry.place.is_some() {
        entry
    } else {
        Entry {
            place: Some(place),
            ..entry
        }
    }
}

/// A table of symbols by name, in the order of first use.
#[derive(Drop)]
pub struct Symbols<'a> {
    /// The entry of each name, in the order of first use.
    pub known: IndexMap<&'a [u8], Entry>,
}

impl<'a> Model for Symbols<'a> {
    ghost use Rattle.std.specs.Prelude.{List, map};
    ghost use Rattle.tc_asm.specs.Symbols.{SymbolData};

    ghost Value = { List SymbolData };

    ghost view = { λ s. map {B = SymbolData} (λ p. record { name = p.0.now; entry = p.1 }) s.known.entries };
}

impl<'a> Symbols<'a> {
    ghost use Rattle.std.specs.Prelude.{◌≡◌, ◌<◌, ◌≤◌, [], IfOk, OnOk, length, slice_get, Some};
    ghost use Rattle.tc_asm.specs.Symbols.{symbol_number, symbol, entry_in, entry_or_undefined, with_symbol_entry, place_in, with_name, with_symbol_label, with_global_symbol};

    /// An empty table of the assembler's symbols.
    pub fn new(alloc: Global) -> Symbols<'a>
        ensures { result ≡ [] }
    {
        Symbols {
            known: IndexMap::new(alloc),
        }
    }

    /// The number of symbols in the assembler's table.
    pub fn len(&self) -> usize
        ensures { result ≡ length self.now }
    {
        self.known.len()
    }

    /// The name and the entry of the symbol with this number in the assembler's table.
    pub fn at(&self, i: usize) -> (&'a [u8], Entry)
        requires { i < length self.now }
        ensures { slice_get self.now i ≡ Some (symbol result.0.now result.1) }
    {
        let (name, entry) = self.known.get_index(i).unwrap();
        (*name, *entry)
    }

    /// The number of a name in the assembler's table of symbols, and 0 if it isn't there.
    pub fn number(&self, name: &[u8]) -> usize
        ensures value { result ≡ symbol_number self.now name.now }
        ensures within { result ≤ length self.now }
    {
        self.known.get_index_of(&name).unwrap_or(0)
    }

    /// Returns the entry of a name in the assembler's table of symbols, if it is there.
    pub fn get(&self, name: &[u8]) -> Option<Entry>
        ensures { result ≡ entry_in self.now name.now }
    {
        self.known.get(&name).copied()
    }

    /// The section and offset of a name's label in the assembler's symbols; `None` without a label.
    pub fn place(&self, name: &[u8]) -> Option<Place>
        ensures { result ≡ place_in self.now name.now }
    {
        self.entry_or_undefined(name).place
    }

    /// Adds a name, without a label, to the assembler's table of symbols, unless known already.
    #[tactic(auto, using(crate::proofs::SymbolLaws::seen_known, crate::proofs::SymbolLaws::seen_new))]
    pub fn add_name(&mut self, name: &'a [u8]) -> Result<(), AllocError>
        ensures { OnOk result (self.new ≡ with_name self.old name.entry.now) }
    {
        if self.get(name).is_some() {
            return Ok(());
        }
        self.insert(name, UNSEEN)?;
        Ok(())
    }

    /// Gives a name its label at this place in the assembler's table of symbols, unless the name
    /// has a label already. Returns the place of that earlier label, or `None`.
    #[tactic(auto, using(crate::proofs::SymbolLaws::labelled_new, crate::proofs::SymbolLaws::labelled_known))]
    pub(crate) fn define(
        &mut self,
        name: &'a [u8],
        place: Place,
    ) -> Result<Option<Place>, AllocError>
        ensures symbols { OnOk result (self.new ≡ with_symbol_label self.old name.entry.now place) }
        ensures before { IfOk result (λ old. old ≡ place_in self.old name.entry.now) }
    {
        let new = Entry {
            place: Some(place),
            is_global: false,
        };
        match self.insert(name, new)? {
            None => Ok(None),
            Some(old) => {
                self.insert(name, entry_with_label(old, place))?;
                Ok(old.place)
            }
        }
    }

    /// Makes a name global in the assembler's table of symbols, as `.global` asks. A new name is
    /// added.
    #[tactic(auto, unfolding(crate::specs::Symbols::with_global_symbol))]
    pub fn make_global(&mut self, name: &'a [u8]) -> Result<(), AllocError>
        ensures { OnOk result (self.new ≡ with_global_symbol self.old name.entry.now) }
    {
        let mut entry = self.entry_or_undefined(name);
        entry.is_global = true;
        self.insert(name, entry)?;
        Ok(())
    }

    /// The entry of a name in the assembler's table of symbols, or an entry without a label if the
    /// table doesn't have the name.
    fn entry_or_undefined(&self, name: &[u8]) -> Entry
        ensures { result ≡ entry_or_undefined self.now name.now }
    {
        self.get(name).unwrap_or(UNSEEN)
    }

    // Sets the entry of a name in the assembler's table of symbols. Returns the entry that the name
    // had before, or `None` if the name is new.
    fn insert(&mut self, name: &'a [u8], entry: Entry) -> Result<Option<Entry>, AllocError>
        ensures put { OnOk result (self.new ≡ with_symbol_entry self.old name.entry.now entry) }
        ensures old { IfOk result (λ old. old ≡ entry_in self.old name.entry.now) }
    {
        Ok(self.known.insert(name, entry)?)
    }
}
