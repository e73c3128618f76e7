//! One edit of a list.

ghost use Rattle.std.specs.Prelude.{◌≡◌, ◌≢◌, ◌-◌, ◌^◌, ◌<◌, length, Err, IfOk, IfErr};
ghost use Rattle.net_model.specs.declared.edit.Edit.TheVariants.{Undo};
ghost use Rattle.cell_store.specs.edit_store.Applied.{IsShown, IsRefused};
ghost use Rattle.commands.specs.edit_report.Said.{said_view};
ghost use Rattle.commands.specs.edit.NetHistories.{history_of};
ghost use Rattle.commands.specs.edit.Causes.{BreaksNoRule};
ghost use Rattle.commands.specs.edit.Answered.{IsAnswered};
ghost use Rattle.commands.specs.edit.Said.{IsOfEdited, IsSaidOf, IsSaid};
ghost use Rattle.commands.specs.edit.EditCounts.{CountsOnEdit};

use crate::edit_report::{Said, said_of};
use cell_store::edit_store::Store;
use net_cells::cell_table::{Evaluator, Value};
use net_edits::EditFault;
use net_model::{Done, Edit, Network};
use std::alloc::{AllocError, Global};

// The network that an edit which no rule refuses would make, or the present one where the edit's own curve is over a
// limit. Refused only for want of memory.
fn shown(store: &Store<Value>, edit: &Edit) -> Result<Network, AllocError>
    requires { BreaksNoRule store.now.present edit.now }
    ensures { IfOk result (IsShown store.now edit.now) }
{
    match store.edited(edit) {
        Ok(net) => Ok(net),
        Err(fault) => match fault {
            EditFault::NoMemory => Err(AllocError),
            _ => unreachable!(),
        },
    }
}

// What is said of an edit that is refused for a cycle or a limit.
fn said_of_edited(
    alloc: Global,
    store: &Store<Value>,
    edit: &Edit,
    fault: &EditFault,
    answer: &Result<Done, EditFault>,
) -> Result<Said, AllocError>
    requires refused { IsRefused store.now edit.now fault.now }
    requires late { IsOfEdited fault.now }
    requires same { answer.now ≡ Err fault.now }
    ensures { IfOk result (λ said. IsSaidOf store.now edit.now fault.now (said_view said)) }
{
    let net = shown(store, edit)?;
    net.keeps();
    said_of(alloc, &net, answer)
}

// What is said of an edit that is refused; want of memory is said nowhere.
fn said_of_refused(
    alloc: Global,
    store: &Store<Value>,
    edit: &Edit,
    fault: &EditFault,
    answer: &Result<Done, EditFault>,
) -> Result<Said, AllocError>
    requires refused { IsRefused store.now edit.now fault.now }
    requires same { answer.now ≡ Err fault.now }
    ensures { IfOk result (λ said. IsSaidOf store.now edit.now fault.now (said_view said)) }
{
    match fault {
        EditFault::NoMemory => Err(AllocError),
        EditFault::Cycle(_) => said_of_edited(alloc, store, edit, fault, answer),
        EditFault::TooMany(_) => said_of_edited(alloc, store, edit, fault, answer),
        EditFault::TooWide(_) => said_of_edited(alloc, store, edit, fault, answer),
        _ => said_of(alloc, store.network(), answer),
    }
}

// What is said of an edit by the answer of the store. Refused only for want of memory, the store's too.
fn said_by(
    alloc: Global,
    store: &Store<Value>,
    edit: &Edit,
    answer: &Result<Done, EditFault>,
) -> Result<Said, AllocError>
    requires { IfErr answer.now (IsRefused store.now edit.now) }
    ensures { IfOk result (λ said. IsSaid store.now edit.now answer.now (said_view said)) }
{
    match answer {
        Ok(_) => said_of(alloc, store.network(), answer),
        Err(fault) => said_of_refused(alloc, store, edit, fault, answer),
    }
}

/// Makes an edit, and gives what is said of it. Refused only for want of memory. The work of the touched cells is
/// counted, all of it where the edit is taken.
pub(crate) fn answered<E: Evaluator<Value>>(
    alloc: Global,
    store: &mut Store<Value>,
    edit: &Edit,
    eval: &mut E,
) -> Result<Said, AllocError>
    requires { edit.now ≢ Undo → length store.old.before < 2 ^ 32 - 1 }
    ensures answered { IfOk result (λ said.
        IsAnswered (history_of store.old) edit.now (said_view said) (history_of store.new)) }
    ensures counts { CountsOnEdit (history_of store.old) edit.now (history_of store.new)
        (E.count eval.old) (E.count eval.new) }
    ensures same { E.counter eval.new ≡ E.counter eval.old }
{
    let answer = store.apply(edit, eval);
    let _network = store.network();
    _network.keeps();
    let _versions = store.versions();
    said_by(alloc, store, edit, &answer)
}
