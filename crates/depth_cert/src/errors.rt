// Why there is no certificate.
ghost use Rattle.std.specs.Prelude.{◌≡◌};
ghost use Rattle.depth_cert.specs.declared.errors.CertErr.TheVariants.{Bad, NoMemory};

use std::alloc::AllocFailed;
use tcd_base::FormErr;

/// Why there is no certificate: the first fault of the bytes, or out of memory.
#[derive(Clone, Copy, Debug, PartialEq, Eq)]
pub enum CertErr {
    Bad(FormErr),
    NoMemory,
}

impl From<FormErr> for CertErr {
    ghost from_gives = { λ fault e. e ≡ Bad fault };

    fn from(fault: FormErr) -> CertErr {
        CertErr::Bad(fault)
    }
}

impl<T: Drop> From<AllocFailed<T>> for CertErr {
    ghost from_gives = { λ _ e. e ≡ NoMemory };

    fn from(_e: AllocFailed<T>) -> CertErr {
        CertErr::NoMemory
    }
}

impl From<tcd_base::NoMemory> for CertErr {
    ghost from_gives = { λ _ e. e ≡ NoMemory };

    fn from(_e: tcd_base::NoMemory) -> CertErr {
        CertErr::NoMemory
    }
}
