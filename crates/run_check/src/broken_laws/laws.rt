//! What holds of all recorded runs. Each law is the contract of a function that does nothing.

ghost use Rattle.run_check.specs.broken_laws.Laws.{BrokenRunsAreUnlawful, UnbrokenRunsAreLawful, FirstBrokenIsOne};

/// A run that breaks a law is not lawful.
pub fn broken_runs_are_unlawful()
    ensures { BrokenRunsAreUnlawful }
{}

/// A recorded run that breaks no law at any row is lawful.
pub fn unbroken_runs_are_lawful()
    ensures { UnbrokenRunsAreLawful }
{}

/// A run has one first broken law at most, in one row.
pub fn first_broken_is_one()
    ensures { FirstBrokenIsOne }
{}
