//! The touched cells, one after the other.

ghost use Rattle.std.specs.Prelude.{◌≡◌, sum_by, IfErr, OnOk};
ghost use Rattle.outcomes.specs.Stages.{IsEqual};
ghost use Rattle.outcomes.specs.Spending.{Spends};
ghost use Rattle.net_cells.specs.Equations.{MeetsEquations};
ghost use Rattle.net_cells.specs.Work.{work};
ghost use Rattle.cell_rules.specs.cell_values.Edits.{AllAnswered, IsEditOf, IsFirstTouched, SameButAt, RefusesFor, EndsAtTouched};

use crate::cell_values::values::Values;
use net_cells::Cell;
use net_cells::cell_table::{AnalysisFault, CellValue, Evaluator, Table, refusal};
use net_model::Network;
use std::alloc::Global;
use std::rc::Rc;

/// The values of the touched cells of a network, each made once, in their order, over those that the network before it
/// had; the other cells keep theirs. Refused for the first cell with an operator over a limit, and then the fault names
/// it and which limit that is, or where there is no memory, and then each operator that is counted is within its limits. It
/// counts the work of the touched cells, and no more than that where it is refused.
pub fn made_anew<V: CellValue + Drop, E: Evaluator<V>>(
    alloc: Global,
    values: &mut Values<V>,
    net: &Network,
    touched: &[Cell],
    eval: &mut E,
) -> Result<(), AnalysisFault>
    requires { IsEditOf net.now touched.now (⟦<Values<V> as Table<V>>⟧.at values.old) }
    ensures meets { OnOk result (MeetsEquations net.now (⟦<Values<V> as Table<V>>⟧.at values.new)) }
    ensures answers { OnOk result (AllAnswered net.now (⟦<Values<V> as Table<V>>⟧.at values.new)) }
    ensures others { SameButAt touched.now
        (⟦<Values<V> as Table<V>>⟧.at values.old) (⟦<Values<V> as Table<V>>⟧.at values.new) }
    ensures before { values.new.versions.kept ≡ values.old.versions.kept }
    ensures refused { IfErr result (RefusesFor (IsFirstTouched net.now touched.now)) }
    ensures spends { Spends E.count E.counter (IsEqual (sum_by (work net.now) touched.now)) AnalysisFault.NoMemory
        (EndsAtTouched net.now touched.now (⟦<Values<V> as Table<V>>⟧.at values.old)) eval.old eval.new result }
{
    net.keeps();
    for cell in touched {
        let value = match eval.eval(*cell, net, values) {
            Ok(value) => value,
            Err(fault) => return Err(refusal(*cell, fault)),
        };
        let Ok(shared) = Rc::new(alloc, value) else {
            return Err(AnalysisFault::NoMemory);
        };
        if let Err(_) = values.put(*cell, shared) {
            return Err(AnalysisFault::NoMemory);
        }
    }
    Ok(())
}
