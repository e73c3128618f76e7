//! Runs of the network that tables write, exact, and networks that have its numbers rounded to their grid: rounding
//! takes no run away.
//!
//! A law is the contract of a function that does nothing: its body is empty, and its `ensures` is proved.
#![tactic(auto)]

ghost use Rattle.rounded_runs.specs.Laws.{WrittenRunsAreRuns};

/// A lawful run of the network that is written, whose links and ports keep the numbers that are written, exact, is a run
/// of the network that has them on its grid: gaps and services rounded down, jitters, latencies and paces rounded up, and
/// times on links, which are whole picoseconds, as they are.
pub fn written_runs_are_runs()
    ensures { WrittenRunsAreRuns }
{}
