// Public laws of how a command ends.
ghost use Rattle.tcd_reading.specs.EndingLaws.{EndingLawInAllCases, EndingLaw};
ghost use Rattle.tcd_reading.specs.ReportLaws.{NeededInputsLaw, ReportLaw};
ghost use Rattle.tcd_reading.specs.Inputs.{Reading, answer};

use std::marker::Brand;

/// A command, by the inputs that it reads. A call at `Brand` picks them.
pub trait AnyCommand {
    /// The inputs of the command and its report.
    ghost reading: { Reading };
}

impl AnyCommand for Brand {
    ghost use Rattle.tcd_reading.specs.Inputs.{answer};

    ghost reading = { answer (λ _. ⊥) };
}

/// Guards `Ends`, the definition of how a command ends: plain equations on status, files and
/// printed text follow. `told` is for files and a sink whose contents are known, `anyhow` for all.
pub fn ending_laws<C: AnyCommand>()
    ensures told { EndingLaw C.reading }
    ensures anyhow { EndingLawInAllCases C.reading }
{}

/// Guards `ReadingSays` and `HoldsNeededInputs`: each report is on the first bad input, or on the
/// values of all. Inputs after a bad one needn't be there.
pub fn reading_laws<C: AnyCommand>()
    ensures says { ReportLaw C.reading }
    ensures asks { NeededInputsLaw C.reading }
{}
