// A section, with names and bytes owned or borrowed.
use std::marker::Model;

/// A section: its name and its bytes.
#[derive(Drop)]
pub struct Section {
    /// The name, of 1 to 64 bytes.
    pub name: String,
    /// The contents.
    pub bytes: Vec<u8>,
}

impl Model for Section {
    ghost use Rattle.std.specs.Prelude.{string_bytes};
    ghost use Rattle.tc_object.specs.Objects.{SectionData};

    ghost Value = { SectionData };

    ghost view = { λ s. record { name = string_bytes s.name; bytes = s.bytes.items } };
}

/// A section that borrows its name and bytes.
#[derive(Drop)]
pub struct SectionRef<'a> {
    /// The name, of 1 to 64 bytes.
    pub name: &'a str,
    /// The contents.
    pub bytes: &'a [u8],
}

impl<'a> Model for SectionRef<'a> {
    ghost use Rattle.tc_object.specs.Objects.{SectionData};

    ghost Value = { SectionData };

    ghost view = { λ s. record { name = s.name.now; bytes = s.bytes.now } };
}
