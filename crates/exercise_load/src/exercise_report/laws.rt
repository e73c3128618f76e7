//! Laws of the summary. Each is the contract of a function that does nothing.

ghost use Rattle.exercise_load.specs.exercise_report.SummaryLaws.{LargestBoundIsOne, LargestDelayIsOne, EquationsGiveOneSummary};

/// The largest bound is at least 0 and at least the bound of each live flow, and it is 0 or one of them.
pub fn largest_bound_is_one()
    ensures { LargestBoundIsOne }
{}

/// The largest delay is at least 0 and at least each of them, and it is 0 or one of them.
pub fn largest_delay_is_one()
    ensures { LargestDelayIsOne }
{}

/// There is one summary of what is found in a run of a network that has an order, whatever table meets its equations.
pub fn equations_give_one_summary()
    ensures { EquationsGiveOneSummary }
{}
