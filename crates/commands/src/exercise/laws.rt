//! Laws of the replies on workloads. Each is the contract of a function that does nothing.

ghost use Rattle.commands.specs.exercise.Laws.{SummaryTellsPremises, QuietSummariesAreWithinBounds};
ghost use Rattle.commands.specs.exercise.Laws.{SummariesGuarantee, StatusesHaveCauses};
ghost use Rattle.commands.specs.exercise.Laws.{RepliesAreDetermined, RepliesAreComplete};

/// The status of a summary is 0 exactly where its run keeps packet sizes, arrival curves and service curves, and 9
/// exactly where it does not.
pub fn summary_tells_premises()
    ensures { SummaryTellsPremises }
{}

/// Where the status is 0, the summary is of a lawful run that keeps the premises of the guarantee: no worst delay is
/// above its flow's bound, and the largest of them is not above the largest bound.
pub fn quiet_summaries_are_within_bounds()
    ensures { QuietSummariesAreWithinBounds }
{}

/// The table of a summary is the guarantee's, whatever the run of its trace keeps: the largest bound that is shown is a
/// bound of every packet's delay, in every lawful run of the workload's network that keeps the premises.
pub fn summaries_guarantee()
    ensures { SummariesGuarantee }
{}

/// The status of a reply tells its cause: 0 and 9 a summary; 6 and 7 the first cell over a limit, by that limit, and 6
/// also a simulation that is too wide. No reply has another one: a workload has no cycle.
pub fn statuses_have_causes()
    ensures { StatusesHaveCauses }
{}

/// A number has one reply.
pub fn replies_are_determined()
    ensures { RepliesAreDetermined }
{}

/// A workload with no cell and no simulation over a limit has no other reply than a summary, with status 0 or 9.
pub fn replies_are_complete()
    ensures { RepliesAreComplete }
{}
