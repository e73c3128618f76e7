//! All cells, by an order of the servers: by any evaluator, and by that of the program.

ghost use Rattle.std.specs.Prelude.{sum_by, IfOk, IfErr};
ghost use Rattle.outcomes.specs.Stages.{IsEqual};
ghost use Rattle.outcomes.specs.Spending.{Spends, SpendsSteps};
ghost use Rattle.net_model.specs.Orders.{IsOrder};
ghost use Rattle.net_cells.specs.FirstOver.{FirstOver};
ghost use Rattle.net_cells.specs.Order.{evaluation_order};
ghost use Rattle.net_cells.specs.Work.{work};
ghost use Rattle.net_cells.specs.MemoryEnds.{MemoryEnds};
ghost use Rattle.cell_eval.specs.flow_analysis.Analyses.{IsAnalysisOf, IsRefusal};

use crate::flow_analysis::each_cell::analysed;
use crate::{Counted, Recent};
use net_cells::cell_table::{Analysis, AnalysisFault, CellValue, Evaluator, Table, Value};
use net_cells::cells;
use net_model::Network;
use outcomes::Steps;
use std::alloc::Global;
use std::sync::ledger::Ledger;

/// The values of all cells of a network, by the order of its servers; each is made once, after those that it is made
/// of. Refused for the first cell with an operator over a limit, and then the fault names it and which limit that is,
/// or where there is no memory, and then each operator that is counted is within its limits. It counts the work of all
/// cells, and no more than that where it is refused.
pub fn analysed_in_order<V: CellValue + Drop, E: Evaluator<V>>(
    alloc: Global,
    net: &Network,
    order: &[u32],
    eval: &mut E,
) -> Result<Analysis<V>, AnalysisFault>
    requires { IsOrder net.now order.now }
    ensures table { IfOk result (λ t. IsAnalysisOf net.now (evaluation_order net.now order.now)
        (⟦<Analysis<V> as Table<V>>⟧.at t)) }
    ensures refused { IfErr result (IsRefusal (FirstOver net.now order.now)) }
    ensures spends { Spends E.count E.counter (IsEqual (sum_by (work net.now) (evaluation_order net.now order.now)))
        AnalysisFault.NoMemory (MemoryEnds net.now (evaluation_order net.now order.now)) eval.old eval.new result }
{
    match cells(alloc, net, order) {
        Ok(all) => analysed(alloc, net, &all, eval),
        Err(_) => Err(AnalysisFault::NoMemory),
    }
}

/// The same by the evaluator of the program: each operator on curves that is applied raises `steps` by 1, on success by the
/// work of all cells, and by no more than that where it is refused. The fault names the first cell with an operator over a
/// limit, and which limit that is.
pub fn analyse<L: Ledger>(
    alloc: Global,
    net: &Network,
    order: &[u32],
    steps: &mut Steps<L>,
) -> Result<Analysis<Value>, AnalysisFault>
    requires { IsOrder net.now order.now }
    ensures table { IfOk result (λ t. IsAnalysisOf net.now (evaluation_order net.now order.now)
        (⟦<Analysis<Value> as Table<Value>>⟧.at t)) }
    ensures refused { IfErr result (IsRefusal (FirstOver net.now order.now)) }
    ensures spends { SpendsSteps (IsEqual (sum_by (work net.now) (evaluation_order net.now order.now)))
        AnalysisFault.NoMemory (MemoryEnds net.now (evaluation_order net.now order.now)) steps.old steps.new result }
{
    let mut recent = Recent::new();
    let mut counted = Counted {
        alloc,
        steps,
        recent: &mut recent,
    };
    analysed_in_order(alloc, net, order, &mut counted)
}
