//! All that an edit changes of the values.

ghost use Rattle.std.specs.Prelude.{◌≡◌, ◌-◌, ◌^◌, ◌<◌, ◌++◌, ◌∷◌, [], sum_by, IfErr, OnOk, OnErr, length};
ghost use Rattle.outcomes.specs.Stages.{IsEqual};
ghost use Rattle.outcomes.specs.Spending.{Spends};
ghost use Rattle.net_cells.specs.Work.{work};
ghost use Rattle.cell_rules.specs.cell_values.Edits.{IsEditOf, IsFirstTouched, AreGone, IsCleared, IsEditedTable, RefusesFor, EditEnds};

use crate::cell_values::anew::made_anew;
use crate::cell_values::values::Values;
use net_cells::Cell;
use net_cells::cell_table::{AnalysisFault, CellValue, Evaluator, Table};
use net_model::Network;
use std::alloc::{AllocError, Global};

/// Takes away the values of cells that the network has not.
fn cleared<V: CellValue + Drop>(
    values: &mut Values<V>,
    net: &Network,
    gone: &[Cell],
) -> Result<(), AllocError>
    requires { AreGone net.now gone.now }
    ensures cleared { OnOk result (IsCleared gone.now
        (⟦<Values<V> as Table<V>>⟧.at values.old) (⟦<Values<V> as Table<V>>⟧.at values.new)) }
    ensures before { values.new.versions.kept ≡ values.old.versions.kept }
{
    for cell in gone {
        values.clear(*cell)?;
    }
    Ok(())
}

/// The values of the cells of a network, from those of the one before it, in a version of their own; the version before
/// is kept. Refused for the first cell with an operator over a limit, or where there is no memory, with each operator that
/// is counted within its limits; and then all is as it was. It counts the work of the touched cells, and no more than that
/// where it is refused.
pub fn edited_values<V: CellValue + Drop, E: Evaluator<V>>(
    alloc: Global,
    values: &mut Values<V>,
    net: &Network,
    gone: &[Cell],
    touched: &[Cell],
    eval: &mut E,
) -> Result<(), AnalysisFault>
    requires room { length values.old.versions.kept < 2 ^ 32 - 1 }
    requires edit { IsEditOf net.now touched.now (⟦<Values<V> as Table<V>>⟧.at values.old) }
    requires gone { AreGone net.now gone.now }
    ensures table { OnOk result (IsEditedTable net.now gone.now touched.now
        (⟦<Values<V> as Table<V>>⟧.at values.old) (⟦<Values<V> as Table<V>>⟧.at values.new)) }
    ensures before { OnOk result (values.new.versions.kept ≡
        values.old.versions.kept ++ values.old.versions.newest ∷ []) }
    ensures kept { OnErr result (values.new.versions ≡ values.old.versions) }
    ensures refused { IfErr result (RefusesFor (IsFirstTouched net.now touched.now)) }
    ensures spends { Spends E.count E.counter (IsEqual (sum_by (work net.now) touched.now)) AnalysisFault.NoMemory
        (EditEnds net.now touched.now (⟦<Values<V> as Table<V>>⟧.at values.old)) eval.old eval.new result }
{
    net.keeps();
    if let Err(_) = values.mark() {
        return Err(AnalysisFault::NoMemory);
    }
    if let Err(fault) = made_anew(alloc, values, net, touched, eval) {
        let _ = values.undo();
        return Err(fault);
    }
    if let Err(_) = cleared(values, net, gone) {
        let _ = values.undo();
        return Err(AnalysisFault::NoMemory);
    }
    Ok(())
}
