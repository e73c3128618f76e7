//! The laws. Each is the contract of a function that does nothing.

ghost use Rattle.existence.specs.edits.Laws.{EditsHaveWork, ListsHaveWork};

/// Edits that have answers have work, of all of them and of those that are taken.
pub fn edits_have_work()
    ensures { EditsHaveWork }
{}

/// Wherever `edit` ends with a report, any edits that its list asks for have work, those of the report and those whose
/// steps are counted: so the bounds of its steps are bounds.
pub fn lists_have_work()
    ensures { ListsHaveWork }
{}
