//! The calls that are told to fail.
ghost use Rattle.std.specs.Prelude.{◌≡◌};
ghost use Rattle.outside.specs.Faults.{fails_at};

/// Whether the call of this number, from 0, is one of those that fail.
pub(crate) fn fails_at(fail: &[u32], call: u64) -> bool
    ensures { result ≡ fails_at fail.now call }
{
    fail.iter().any(|number| *number as u64 == call)
}
