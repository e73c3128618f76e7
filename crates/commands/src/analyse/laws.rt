//! Laws of the replies on files. Each is the contract of a function that does nothing.

ghost use Rattle.commands.specs.analyse.Laws.{RepliesAreComplete, RepliesAreDetermined, StatusesHaveCauses, UnboundedIsInfinite};

/// Two replies on one file have one status, and one text unless it tells a cycle (then, too, by a law of `netcalc_cli`).
pub fn replies_are_determined()
    ensures { RepliesAreDetermined }
{}

/// A file that gives a network without a cycle, with no cell over a limit, has no other reply than a report.
pub fn replies_are_complete()
    ensures { RepliesAreComplete }
{}

/// The status of a reply tells its cause: 0 a report; 1 a rule of the file; 6 and 7 the first curve or the first cell over
/// a limit, by that limit; 8 a cycle. No reply has another one.
pub fn statuses_have_causes()
    ensures { StatusesHaveCauses }
{}

/// Where a report shows `unbounded` for a cell, the number of the cell is infinite.
pub fn unbounded_is_infinite()
    ensures { UnboundedIsInfinite }
{}
