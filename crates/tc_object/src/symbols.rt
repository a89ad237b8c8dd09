// A symbol, with its name owned or borrowed.
use std::marker::Model;

/// The kind of a symbol that is used here and defined in another object.
pub const UNDEFINED_SYMBOL: u8 = 0;

/// The kind of a symbol that only its own object sees.
pub const LOCAL_SYMBOL: u8 = 1;

/// The kind of a symbol that all objects see.
pub const GLOBAL_SYMBOL: u8 = 2;

/// A name for an offset in a section. Kinds: 0 undefined (section and offset are 0), 1 local, 2
/// global.
#[derive(Drop)]
pub struct Symbol {
    /// The name, of 1 to 64 bytes.
    pub name: String,
    /// `UNDEFINED_SYMBOL`, `LOCAL_SYMBOL` or `GLOBAL_SYMBOL`.
    pub kind: u8,
    /// The number of the section, and 0 if the symbol is undefined.
    pub section: u16,
    /// The offset in the section, and 0 if the symbol is undefined.
    pub offset: u32,
}

impl Model for Symbol {
    ghost use Rattle.std.specs.Prelude.{string_bytes};
    ghost use Rattle.tc_object.specs.Objects.{SymbolData};

    ghost Value = { SymbolData };

    ghost view = { λ s. record { name = string_bytes s.name; kind = s.kind; section = s.section; offset = s.offset } };
}

/// A symbol that borrows its name.
#[derive(Drop)]
pub struct SymbolRef<'a> {
    /// The name, of 1 to 64 bytes.
    pub name: &'a str,
    /// `UNDEFINED_SYMBOL`, `LOCAL_SYMBOL` or `GLOBAL_SYMBOL`.
    pub kind: u8,
    /// The number of the section, and 0 if the symbol is undefined.
    pub section: u16,
    /// The offset in the section, and 0 if the symbol is undefined.
    pub offset: u32,
}

impl<'a> Model for SymbolRef<'a> {
    ghost use Rattle.tc_object.specs.Objects.{SymbolData};

    ghost Value = { SymbolData };

    ghost view = { λ s. record { name = s.name.now; kind = s.kind; section = s.section; offset = s.offset } };
}
