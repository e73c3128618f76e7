//! The table of a network's cells, or the answer where there is none.

ghost use Rattle.std.specs.Prelude.{IfErr, IfOk};
ghost use Rattle.net_model.specs.Accepted.{IsAccepted};
ghost use Rattle.net_model.specs.Orders.{IsOrder};
ghost use Rattle.command_replies.specs.View.{reply_of};
ghost use Rattle.commands.specs.Tabled.{HasTable, IsStopped, CountsOnTable};

use cell_eval::flow_analysis::analyse;
use command_replies::{Answer, cell_too_many, cell_too_wide, goes_round};
use net_cells::cell_table::{Analysis, AnalysisFault, Table, Value};
use net_model::Network;
use net_model::net_graph::{GraphFault, order};
use outcomes::Steps;
use std::alloc::{AllocError, Global};
use std::sync::ledger::Ledger;

// The table where the servers have this order.
fn in_order<L: Ledger>(
    alloc: Global,
    net: &Network,
    order: &[u32],
    steps: &mut Steps<L>,
) -> Result<Analysis<Value>, Result<Answer, AllocError>>
    requires accepted { IsAccepted net.now }
    requires order { IsOrder net.now order.now }
    ensures table { IfOk result (λ t. HasTable net.now (⟦<Analysis<Value> as Table<Value>>⟧.at t)) }
    ensures stopped { IfErr result (λ told. IfOk told (λ r. IsStopped net.now (reply_of r))) }
    ensures counts { CountsOnTable net.now steps.old steps.new result }
{
    match analyse(alloc, net, order, steps) {
        Ok(table) => Ok(table),
        Err(AnalysisFault::TooMany(cell)) => Err(cell_too_many(alloc, net, cell)),
        Err(AnalysisFault::TooWide(cell)) => Err(cell_too_wide(alloc, net, cell)),
        Err(AnalysisFault::NoMemory) => Err(Err(AllocError)),
    }
}

/// The table of a network's cells, which meets its equations; or else the answer: of a cycle, of the first cell over a
/// limit, or none for want of memory. The steps are exactly the work of all cells with a table, and else no more; none by a
/// cycle.
pub(crate) fn table_of<L: Ledger>(
    alloc: Global,
    net: &Network,
    steps: &mut Steps<L>,
) -> Result<Analysis<Value>, Result<Answer, AllocError>>
    requires { IsAccepted net.now }
    ensures table { IfOk result (λ t. HasTable net.now (⟦<Analysis<Value> as Table<Value>>⟧.at t)) }
    ensures stopped { IfErr result (λ told. IfOk told (λ r. IsStopped net.now (reply_of r))) }
    ensures counts { CountsOnTable net.now steps.old steps.new result }
{
    match order(alloc, net) {
        Ok(servers) => in_order(alloc, net, &servers, steps),
        Err(GraphFault::Cycle(walk)) => Err(goes_round(alloc, net, &walk)),
        Err(GraphFault::NoMemory) => Err(Err(AllocError)),
    }
}
