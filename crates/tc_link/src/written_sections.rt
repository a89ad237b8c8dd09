// A section whose relocations are written.
ghost use Rattle.std.specs.Prelude.{◌≡◌, ◌<◌, ◌+◌, ◌++◌, OnOk, IfOk, IfErr};
ghost use Rattle.tc_link.specs.declared.errors.LinkErr.TheVariants.{NoMemory};

use crate::LinkErr;
use std::alloc::Global;
use std::marker::Model;
use tc_object::SectionRef;

/// A section with a borrowed name and with bytes of its own.
#[derive(Drop)]
pub(crate) struct WrittenSection<'a> {
    pub(crate) name: &'a str,
    pub(crate) bytes: Vec<u8>,
}

impl<'a> Model for WrittenSection<'a> {
    ghost use Rattle.tc_object.specs.Objects.{SectionData};

    ghost Value = { SectionData };

    ghost view = { λ s. record { name = s.name.now; bytes = s.bytes.items } };
}

// Appends the relocated sections of a further object, `more`, to those of the earlier objects,
// `contents`.
pub(crate) fn append_relocated_sections<'a>(
    contents: &mut Vec<WrittenSection<'a>>,
    more: Vec<WrittenSection<'a>>,
) -> Result<(), LinkErr>
    ensures ok { OnOk result (contents.new.items ≡ contents.old.items ++ more.entry.items) }
    ensures err { IfErr result (λ e. e ≡ NoMemory) }
{
    for section in more {
        contents.push(section)?;
    }
    Ok(())
}

// Returns copies of an object's sections, to whose bytes the linker then applies relocations.
pub(crate) fn copies_of_sections<'a>(
    alloc: Global,
    sections: &[SectionRef<'a>],
) -> Result<Vec<WrittenSection<'a>>, LinkErr>
    ensures ok { IfOk result (λ copies. copies.items ≡ sections.now) }
    ensures err { IfErr result (λ e. e ≡ NoMemory) }
{
    let mut copies = Vec::new(alloc);
    for section in sections {
        let bytes = Vec::from_slice(alloc, section.bytes)?;
        copies.push(WrittenSection {
            name: section.name,
            bytes,
        })?;
    }
    Ok(copies)
}
