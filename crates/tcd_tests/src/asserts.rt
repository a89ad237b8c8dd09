//! Assertions. Each `assert_eq!` costs the prover some two seconds where it stands, a call of one
//! of these a fraction of it.
use std::fmt::Debug;
use std::process::Abort;

/// Ends the test where the two aren't equal, and tells both.
pub fn same<R: Abort, T: PartialEq + Debug>(rt: &R, found: &T, want: &T) {
    assert_eq!(rt; *found, *want);
}

/// Ends the test where this is not so.
pub fn is_so<R: Abort>(rt: &R, it: bool) {
    assert!(rt; it);
}
