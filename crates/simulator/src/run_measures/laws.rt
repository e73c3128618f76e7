//! Laws of lawful runs. A law is the contract of a function that does nothing.

ghost use Rattle.simulator.specs.run_measures.Laws.{LawfulRunsAreNumbered};

/// The packets of a lawful run are numbered in the order in which they enter.
pub fn lawful_runs_are_numbered()
    ensures { LawfulRunsAreNumbered }
{}
