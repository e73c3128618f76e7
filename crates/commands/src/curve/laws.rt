//! Laws of the replies on scripts. Each is the contract of a function that does nothing.

ghost use Rattle.commands.specs.curve.Laws.{RepliesAreComplete, RepliesAreDetermined, StatusesHaveCauses};

/// There is one reply on a file.
pub fn replies_are_determined()
    ensures { RepliesAreDetermined }
{}

/// A script that finds no fault has no other reply than its answers.
pub fn replies_are_complete()
    ensures { RepliesAreComplete }
{}

/// The status of a reply tells its cause: 0 the answers; 1 a line that is no statement, or a rule that one breaks; 6 and 7 the
/// first line over a limit, by that limit. No reply has another one.
pub fn statuses_have_causes()
    ensures { StatusesHaveCauses }
{}
