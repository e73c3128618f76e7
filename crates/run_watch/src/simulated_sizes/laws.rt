//! A law is the contract of a function that does nothing.

ghost use Rattle.run_watch.specs.simulated_sizes.Laws.{SimulatedRunsHaveSizes};

/// A simulated run whose gauge is below 2^120 is lawful, and its numbers stand by that gauge's sizes: what is asked of
/// a run whose first breach is looked for.
pub fn simulated_runs_have_sizes()
    ensures { SimulatedRunsHaveSizes }
{}
