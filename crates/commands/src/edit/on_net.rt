//! The answer on a network and edits.

ghost use Rattle.std.specs.Prelude.{◌≡◌, ◌≤◌, [], length, map, IfOk};
ghost use Rattle.input_texts.specs.table_text.EditRows.{edit_view};
ghost use Rattle.net_model.specs.Accepted.{IsAccepted};
ghost use Rattle.net_model.specs.Orders.{IsOrder};
ghost use Rattle.net_model.specs.Networks.{Net};
ghost use Rattle.net_cells.specs.Meanings.{CellTable};
ghost use Rattle.command_replies.specs.View.{reply_of, status_of, code_of};
ghost use Rattle.commands.specs.edit.NetHistories.{begun};
ghost use Rattle.commands.specs.edit.OnEdits.{AreReported, IsReplyOnEdits};
ghost use Rattle.commands.specs.edit.EditCounts.{CountsInTurn, CountsOnEdits};

use crate::edit::rows::all_answered;
use crate::edit_report::edit_text_in;
use cell_eval::{Counted, Recent};
use cell_store::edit_store::Store;
use command_replies::{Answer, Status, cell_too_many, cell_too_wide, goes_round};
use net_cells::cell_table::{AnalysisFault, Evaluator, Value};
use net_model::net_graph::{GraphFault, order};
use net_model::{Edit, Network};
use outcomes::Steps;
use report_text::json_report::Form;
use std::alloc::{AllocError, Global};
use std::sync::ledger::Ledger;

// The report on edits of the network that a store begins with.
fn reported<E: Evaluator<Value>>(
    alloc: Global,
    mut store: Store<Value>,
    edits: &[Edit],
    form: Form,
    eval: &mut E,
) -> Result<Answer, AllocError>
    requires first { store.before ≡ [] }
    requires few { length edits.now ≤ 1000 }
    ensures reply { IfOk result (λ r. (net : Net) × (at : CellTable)
        × AreReported form store.present edits.now net at (reply_of r)) }
    ensures done { IfOk result (λ r. code_of r.status ≡ 0) }
    ensures counts { CountsInTurn (begun store.present) edits.now (E.count eval.old) (E.count eval.new) result }
    ensures same { E.counter eval.new ≡ E.counter eval.old }
{
    let _first = store.network();
    _first.keeps();
    let _values = store.versions();
    let answers = all_answered(alloc, &mut store, edits, eval)?;
    let net = store.network();
    net.keeps();
    let _versions = store.versions();
    let text = edit_text_in(alloc, form, net, &store, &answers)?;
    Ok(Answer {
        status: Status::Done,
        text,
    })
}

// The answer on a network whose servers have this order.
fn in_order<E: Evaluator<Value>>(
    alloc: Global,
    net: &Network,
    order: &[u32],
    edits: &[Edit],
    form: Form,
    eval: &mut E,
) -> Result<Answer, AllocError>
    requires accepted { IsAccepted net.now }
    requires ordered { IsOrder net.now order.now }
    requires few { length edits.now ≤ 1000 }
    ensures reply { IfOk result (λ r. IsReplyOnEdits form net.now (map edit_view edits.now) (reply_of r)) }
    ensures counts { CountsOnEdits net.now edits.now (status_of result) (E.count eval.old) (E.count eval.new) }
    ensures same { E.counter eval.new ≡ E.counter eval.old }
{
    match Store::new(alloc, net.copy()?, order, eval) {
        Ok(store) => reported(alloc, store, edits, form, eval),
        Err(AnalysisFault::TooMany(cell)) => cell_too_many(alloc, net, cell),
        Err(AnalysisFault::TooWide(cell)) => cell_too_wide(alloc, net, cell),
        Err(AnalysisFault::NoMemory) => Err(AllocError),
    }
}

/// The answer on a network and edits: of a cycle, of the first cell over a limit, or the report. Refused only for want of
/// memory.
pub(crate) fn on_network<L: Ledger>(
    alloc: Global,
    net: &Network,
    edits: &[Edit],
    form: Form,
    steps: &mut Steps<L>,
) -> Result<Answer, AllocError>
    requires accepted { IsAccepted net.now }
    requires few { length edits.now ≤ 1000 }
    ensures reply { IfOk result (λ r. IsReplyOnEdits form net.now (map edit_view edits.now) (reply_of r)) }
    ensures counts { CountsOnEdits net.now edits.now (status_of result) steps.old steps.new }
{
    match order(alloc, net) {
        Ok(servers) => {
            let mut recent = Recent::new();
            let mut counted = Counted {
                alloc,
                steps,
                recent: &mut recent,
            };
            in_order(alloc, net, &servers, edits, form, &mut counted)
        }
        Err(GraphFault::Cycle(walk)) => goes_round(alloc, net, &walk),
        Err(GraphFault::NoMemory) => Err(AllocError),
    }
}
