//! Laws of the replies on traces. Each is the contract of a function that does nothing.

ghost use Rattle.commands.specs.measure.MeasureCauses.{StatusesHaveCauses};
ghost use Rattle.commands.specs.measure.Laws.{RepliesAreComplete, RepliesAreDetermined, ReportsAreLeast};
ghost use Rattle.commands.specs.measure.Laws.{StatusesAreFour};

/// What a report shows is the least arrival curve of the packets, and the least bucket of the rate that they keep.
pub fn reports_are_least()
    ensures { ReportsAreLeast }
{}

/// A reply has the status 0, 1, 6 or 7.
pub fn statuses_are_four()
    ensures { StatusesAreFour }
{}

/// The status of a reply tells its cause: 0 a report; 1 a rule of the network's file, a row of the trace, or a name
/// that no live flow has; 6 and 7 the first curve over a limit, or else the packets, or else the burst, by that limit.
pub fn statuses_have_causes()
    ensures { StatusesHaveCauses }
{}

/// Files that give a network and a trace, with a live flow of the name, whose packets and whose burst are over no
/// limit, have no other reply than a report.
pub fn replies_are_complete()
    ensures { RepliesAreComplete }
{}

/// Two replies on the same files, name and rate are one.
pub fn replies_are_determined()
    ensures { RepliesAreDetermined }
{}
