// Calls that fail by their number, for the files and the sink that tests use.
ghost use Rattle.std.specs.Prelude.{◌≡◌};
ghost use Rattle.tcd_base.specs.FailingCalls.{is_failing_call};

// Returns true if the call of this number, counted from 0, is in `failing` and so has to fail.
pub(crate) fn is_failing_call(failing: &[u32], call: u64) -> bool
    ensures { result ≡ is_failing_call failing.now call }
{
    failing.iter().any(|n| u64::from(*n) == call)
}
