//! All cells, one after the other.

ghost use Rattle.std.specs.Prelude.{sum_by, IfOk, IfErr};
ghost use Rattle.outcomes.specs.Stages.{IsEqual};
ghost use Rattle.outcomes.specs.Spending.{Spends};
ghost use Rattle.net_cells.specs.Work.{work};
ghost use Rattle.net_cells.specs.MemoryEnds.{MemoryEnds};
ghost use Rattle.cell_eval.specs.flow_analysis.Analyses.{AreAllCells, IsAnalysisOf, IsFirstOver, IsRefusal};

use net_cells::Cell;
use net_cells::cell_table::{Analysis, AnalysisFault, CellValue, Evaluator, Table, refusal};
use net_model::Network;
use std::alloc::Global;

/// The values of all cells of a network, each made once, in their order, by the values before it. Refused for the first
/// cell with an operator over a limit, and then the fault names it and which limit that is, or where there is no
/// memory, and then each operator that is counted is within its limits. It counts the work of all cells, and no more than
/// that where it is refused.
pub fn analysed<V: CellValue + Drop, E: Evaluator<V>>(
    alloc: Global,
    net: &Network,
    cells: &[Cell],
    eval: &mut E,
) -> Result<Analysis<V>, AnalysisFault>
    requires { AreAllCells net.now cells.now }
    ensures table { IfOk result (λ t. IsAnalysisOf net.now cells.now (⟦<Analysis<V> as Table<V>>⟧.at t)) }
    ensures refused { IfErr result (IsRefusal (IsFirstOver net.now cells.now)) }
    ensures spends { Spends E.count E.counter (IsEqual (sum_by (work net.now) cells.now)) AnalysisFault.NoMemory
        (MemoryEnds net.now cells.now) eval.old eval.new result }
{
    net.keeps();
    let mut table = Analysis::new(alloc);
    for cell in cells {
        let value = match eval.eval(*cell, net, &table) {
            Ok(value) => value,
            Err(fault) => return Err(refusal(*cell, fault)),
        };
        if let Err(_) = table.put(*cell, value) {
            return Err(AnalysisFault::NoMemory);
        }
    }
    Ok(table)
}
