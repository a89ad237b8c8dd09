// Public laws of relocations and of the instructions whose constants they fill.
ghost use Rattle.tc_reloc.specs.FillingLaws.{FilledFieldsFitRow, FillingSetsOnlyConstant};

/// If the field of a relocation can hold a number, that number fits the constant of each
/// instruction whose constant the relocation fills. Writing the number there gives the encoding of
/// the instruction with that constant.
pub fn relocation_filling_laws()
    ensures fits { FilledFieldsFitRow }
    ensures written { FillingSetsOnlyConstant }
{}
