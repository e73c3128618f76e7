//! Laws of the replies on networks and recorded runs. Each is the contract of a function that does nothing.

ghost use Rattle.commands.specs.check.Laws.{VerdictsTellRuns, AdmissibleRunsAreWithinBounds, ReportsGuarantee};
ghost use Rattle.commands.specs.check.Laws.{StatusesHaveCauses, RepliesAreDetermined, RepliesAreComplete};

/// The status of a report is 0 exactly where its run is lawful and keeps packet sizes, arrival curves and service curves,
/// and 9 exactly where not. It tells the first law that the run breaks exactly where the run is not lawful, and what is
/// found in it, with the first premise that it breaks, exactly where it is.
pub fn verdicts_tell_runs()
    ensures { VerdictsTellRuns }
{}

/// Where the status is 0, the report is of a lawful run that keeps the premises of the guarantee: no worst delay that is
/// shown is above the bound beside it, and no peak above the backlog beside it.
pub fn admissible_runs_are_within_bounds()
    ensures { AdmissibleRunsAreWithinBounds }
{}

/// The bounds beside a report hold for every lawful run of its network that keeps the premises, whatever the recorded run
/// keeps.
pub fn reports_guarantee()
    ensures { ReportsGuarantee }
{}

/// The status of a reply tells its cause: 0 and 9 a report; 1 a rule of the network's file or a row of the run; 6 and 7
/// the first curve or the first cell over a limit, by that limit, and 6 also a run that is too wide; 8 a cycle. No reply
/// has another one.
pub fn statuses_have_causes()
    ensures { StatusesHaveCauses }
{}

/// Two replies on the same files have one status, and one text unless it tells a cycle (then, too, by a law of
/// `netcalc_cli`).
pub fn replies_are_determined()
    ensures { RepliesAreDetermined }
{}

/// Files that give a network without a cycle and a run of it, with no cell over a limit and the run below its gauge, have
/// no other reply than a report, with status 0 or 9.
pub fn replies_are_complete()
    ensures { RepliesAreComplete }
{}
