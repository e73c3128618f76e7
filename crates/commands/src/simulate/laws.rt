//! Laws of the replies on networks and traces. Each is the contract of a function that does nothing.

ghost use Rattle.commands.specs.simulate.Laws.{StatusTellsPremises, OpenServersBreakNothing, QuietRunsAreWithinBounds};
ghost use Rattle.commands.specs.simulate.Laws.{ReportsGuarantee};
ghost use Rattle.commands.specs.simulate.Laws.{StatusesHaveCauses, RepliesAreDetermined, RepliesAreComplete};

/// The status of a report is 0 exactly where its run keeps packet sizes, arrival curves and service curves, and 9
/// exactly where it does not.
pub fn status_tells_premises()
    ensures { StatusTellsPremises }
{}

/// No report tells a window in which a server of kind latency or gate that has no stall in the trace works less than its
/// service curve: its run has none.
pub fn open_servers_break_nothing()
    ensures { OpenServersBreakNothing }
{}

/// Where the status is 0, the report is of a lawful run that keeps the premises of the guarantee: no worst delay that
/// is shown is above the bound beside it, and no peak above the backlog beside it.
pub fn quiet_runs_are_within_bounds()
    ensures { QuietRunsAreWithinBounds }
{}

/// The bounds of a report hold for every lawful run of its network that keeps the premises, whatever the run of the
/// trace keeps.
pub fn reports_guarantee()
    ensures { ReportsGuarantee }
{}

/// The status of a reply tells its cause: 0 and 9 a report; 1 a rule of the network's file or a row of the trace; 6
/// and 7 the first curve or the first cell over a limit, by that limit, and 6 also a simulation that is too wide; 8 a
/// cycle. No reply has another one.
pub fn statuses_have_causes()
    ensures { StatusesHaveCauses }
{}

/// Two replies on the same files have one status, and one text unless it tells a cycle (then, too, by a law of
/// `netcalc_cli`).
pub fn replies_are_determined()
    ensures { RepliesAreDetermined }
{}

/// Files that give a network without a cycle and a trace of it, with no cell and no simulation over a limit, have no
/// other reply than a report, with status 0 or 9.
pub fn replies_are_complete()
    ensures { RepliesAreComplete }
{}
