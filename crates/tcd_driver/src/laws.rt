// Laws of what the tool promises.
ghost use Rattle.std.specs.Prelude.{ℕ, List};
ghost use Rattle.tcd_base.specs.Files.{FileMap};
ghost use Rattle.tcd_driver.specs.SureCalls.{StatusesAreDecided};

use std::marker::Brand;

/// What it means that a command is done, and that it refuses. A call at `Brand` picks it.
pub trait AnyEnds {
    ghost IfDone: { FileMap → FileMap → List ℕ → Type 0 };

    ghost IfRefused: { FileMap → FileMap → List ℕ → Type 0 };
}

impl AnyEnds for Brand {
    ghost use Rattle.tcd_driver.specs.Tool.{NeverRefuses};

    ghost IfDone = { NeverRefuses };

    ghost IfRefused = { NeverRefuses };
}

/// Guards `CommandSays`, a command's promise: if no file, output or allocation fails, a call ends
/// Done, Refused or BadInput, whichever the input files allow. `C` defines the first two.
pub fn decided_status_law<C: AnyEnds>()
    ensures { StatusesAreDecided C.IfDone C.IfRefused }
{}
