//! What makes values.

ghost use Rattle.std.specs.Prelude.{ℕ, IsTrue};
ghost use Rattle.outcomes.specs.Stages.{IsEqual};
ghost use Rattle.outcomes.specs.Spending.{Spends};
ghost use Rattle.net_cells.specs.Cells.{has_cell};
ghost use Rattle.net_cells.specs.CellFormulas.{formula};
ghost use Rattle.net_cells.specs.Equations.{MeetsBelow};
ghost use Rattle.net_cells.specs.Work.{work};
ghost use Rattle.net_cells.specs.Refusals.{Stops};
ghost use Rattle.net_cells.specs.cell_table.Gives.{Gives};
ghost use Rattle.net_cells.specs.cell_table.Values.{answer_of};

use crate::Cell;
use crate::cell_table::table::{CellValue, Table};
use net_model::Network;
use upp_limits::OpFault;

/// What makes the value of a cell from those of the cells that it is made of.
pub trait Evaluator<V: CellValue> {
    /// How many operators on curves it has applied.
    ghost count: { Self → ℕ };

    /// Which counter it counts in: the name of the reference that it holds.
    ghost counter: { Self → ℕ };

    /// The value of a cell by a table in which all that the cell depends on meets its equations; refused for the first
    /// operator that is over a limit, or where there is no memory, and then each operator that is counted is within its
    /// limits. It counts the cell's work, and no more than that where it is refused.
    fn eval<T: Table<V>>(&mut self, cell: Cell, net: &Network, table: &T) -> Result<V, OpFault>
        requires cell { IsTrue (has_cell net.now cell) }
        requires below { MeetsBelow net.now (T.at table.now) cell }
        ensures answer { Gives (T.at table.now) (formula net.now cell) (answer_of V.meaning result) }
        ensures spends { Spends count counter (IsEqual (work net.now cell)) OpFault.NoMemory
            (Stops (T.at table.now) (formula net.now cell) OpFault.NoMemory) self.old self.new result };
}
