// Public laws of sources and of their objects.
ghost use Rattle.tc_asm.specs.SourceRelocations.{ObjectHasStatementRelocations, RelocatedFieldsAreZero};
ghost use Rattle.tc_asm.specs.Objects.{ObjectHasStatementSections};
ghost use Rattle.tc_asm.specs.InstructionLaws.{InstructionsSpellRows};
ghost use Rattle.tc_asm.specs.ShortJumpLaws.{ShortJumpsReachLabels};
ghost use Rattle.tc_asm.specs.Statements.{StatementBytesAreAtOffset, SectionsAreStatementBytes};

/// A section of any source is the bytes of its statements in order. The offset of a statement is
/// the total size of the earlier statements of its section.
pub fn section_laws()
    ensures sections { SectionsAreStatementBytes }
    ensures offsets { StatementBytesAreAtOffset }
{}

/// The sections of a source's object are those of its statements. If no rule is broken, each
/// statement that waits for an address has one relocation, and zeros in the field to fill.
pub fn relocation_laws()
    ensures sections { ObjectHasStatementSections }
    ensures relocations { ObjectHasStatementRelocations }
    ensures unfilled { RelocatedFieldsAreZero }
{}

/// In a source that breaks no rule, each instruction's bytes encode its row of the instruction
/// table with valid fields. A 16-bit jump to a symbol reaches the symbol's label, wherever the
/// section begins.
pub fn instruction_laws()
    ensures instructions { InstructionsSpellRows }
    ensures jumps { ShortJumpsReachLabels }
{}
