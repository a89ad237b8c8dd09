// An exit that knows nothing.
ghost use Rattle.std.specs.Prelude.{◌≡◌, false};

use crate::Exit;
use std::marker::Model;
use value_domain::Val;

/// Returns a placeholder, which the exit read from a certificate overwrites: IE is off, CCPN is 0,
/// and each lower register may have any value.
pub fn blank_exit() -> Exit
    ensures ie { result.ie ≡ false }
    ensures ccpn { result.ccpn ≡ 0 }
{
    Exit {
        ie: false,
        ccpn: 0,
        lower: std::array::from_fn(|_| Val::any()),
    }
}
