//! Laws of the numbers of recorded runs. A law is the contract of a function that does nothing.

ghost use Rattle.run_check.specs.recorded_sizes.Laws.{RecordedRunsHaveNumbers, RecordedRunsHaveDelays, LawfulRunsHaveSizes};

/// A run whose gauge is below 2^120 can be walked: its packets' bits and the bits of its works are on a grid that has
/// room, and where a packet leaves, the time and the link have a sum. It need not be lawful.
pub fn recorded_runs_have_numbers()
    ensures { RecordedRunsHaveNumbers }
{}

/// The numbers of a lawful run whose gauge is below 2^120 stand by that gauge's sizes: what is asked of a run whose
/// first breach is looked for.
pub fn lawful_runs_have_sizes()
    ensures { LawfulRunsHaveSizes }
{}

/// The sums by which the worst delays of a run are found have room where its gauge is below 2^120.
pub fn recorded_runs_have_delays()
    ensures { RecordedRunsHaveDelays }
{}
