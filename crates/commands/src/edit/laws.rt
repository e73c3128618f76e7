//! Laws of the replies on edits. Each is the contract of a function that does nothing.

ghost use Rattle.commands.specs.edit.EditCauses.{StatusesHaveCauses};
ghost use Rattle.commands.specs.edit.Laws.{RepliesAreComplete, RepliesAreDetermined, ReportsGuarantee};

/// What a report shows of the network after the edits is kept in every lawful run of that network that keeps packet
/// sizes, arrival and service curves.
pub fn reports_guarantee()
    ensures { ReportsGuarantee }
{}

/// A file that gives a network without a cycle, with no cell over a limit, and a list without a fault have no other
/// reply than a report.
pub fn replies_are_complete()
    ensures { RepliesAreComplete }
{}

/// Two replies on the same files have one status, and one text unless it tells a cycle, of the file's network or of one that
/// an edit would make (then, too, by a law of `netcalc_cli`).
pub fn replies_are_determined()
    ensures { RepliesAreDetermined }
{}

/// The status of a reply tells its cause: 0 a report; 1 a rule of the network's file or a row of the list; 6 and 7 the
/// first curve or the first cell over a limit, by that limit; 8 a cycle. No reply has another one.
pub fn statuses_have_causes()
    ensures { StatusesHaveCauses }
{}
