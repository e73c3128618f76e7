//! The edits of a list, one after the other.

ghost use Rattle.std.specs.Prelude.{◌≡◌, ◌≤◌, [], length, map, IfOk};
ghost use Rattle.commands.specs.edit_report.Said.{said_view};
ghost use Rattle.commands.specs.edit.NetHistories.{history_of};
ghost use Rattle.commands.specs.edit.Answered.{AreAnswered};
ghost use Rattle.commands.specs.edit.EditCounts.{CountsInTurn};

use crate::edit::row::answered;
use crate::edit_report::Said;
use cell_store::edit_store::Store;
use net_cells::cell_table::{Evaluator, Value};
use net_model::Edit;
use std::alloc::{AllocError, Global};

/// Makes edits in turn, and gives what is said of each. Refused only for want of memory.
pub(crate) fn all_answered<E: Evaluator<Value>>(
    alloc: Global,
    store: &mut Store<Value>,
    edits: &[Edit],
    eval: &mut E,
) -> Result<Vec<Said>, AllocError>
    requires first { store.old.before ≡ [] }
    requires few { length edits.now ≤ 1000 }
    ensures answered { IfOk result (λ answers. AreAnswered (history_of store.old) edits.now
        (map said_view answers.items) (history_of store.new)) }
    ensures counts { CountsInTurn (history_of store.old) edits.now (E.count eval.old) (E.count eval.new) result }
    ensures same { E.counter eval.new ≡ E.counter eval.old }
{
    let mut answers = Vec::new(alloc);
    for edit in edits {
        let said = answered(alloc, store, edit, eval)?;
        answers.push(said)?;
    }
    Ok(answers)
}
