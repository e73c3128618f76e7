//! The law. It is the contract of a function that does nothing.

ghost use Rattle.existence.specs.scripts.Laws.{ScriptsHaveReplies};

/// Each text has a reply of `curve` that is no want of memory: its answers, its first fault, or the first of its lines
/// that is over a limit.
pub fn scripts_have_replies()
    ensures { ScriptsHaveReplies }
{}
