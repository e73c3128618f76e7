//! The value of a sum, with what it took.

ghost use Rattle.std.specs.Prelude.{◌≡◌, ℕ, ◌-◌, List, [], length, Result, Err, IfOk};
ghost use Rattle.upp_limits.specs.declared.op_kind.OpFault.{OpFault};
ghost use Rattle.net_cells.specs.declared.cell.Cell.{Cell};
ghost use Rattle.net_cells.specs.CellFormulas.{sum_of_cells};
ghost use Rattle.net_cells.specs.Refusals.{Stops};
ghost use Rattle.net_cells.specs.cell_table.Gives.{Gives};
ghost use Rattle.net_cells.specs.cell_table.Values.{answer_of, meaning_of};
ghost use Rattle.cell_eval.specs.Partial.{Adds, IsReady};
ghost use Rattle.outcomes.specs.Spending.{Counts};

use crate::curve_sums::{Partial, finished};
use net_cells::cell_table::{Table, Value};
use std::alloc::Global;
use upp_limits::OpFault;

/// The value of a sum of cells that was made, which takes one operator less than it has terms; or its refusal.
pub(crate) fn summed<T: Table<Value>>(
    alloc: Global,
    table: &T,
    made: Result<Partial, OpFault>,
) -> Result<Value, OpFault>
    requires { IfOk made (IsReady (T.at table.now)) }
    ensures answer { (cells : List Cell) (old new : ℕ) → Adds (T.at table.now) [] cells old new made →
        Gives (T.at table.now) (sum_of_cells cells) (answer_of meaning_of result) }
    ensures counts { (cells : List Cell) (old new : ℕ) → Adds (T.at table.now) [] cells old new made →
        Counts (length cells - 1) old new (answer_of meaning_of result) }
    ensures memory { (cells : List Cell) (old new : ℕ) → Adds (T.at table.now) [] cells old new made →
        answer_of meaning_of result ≡ Err OpFault.NoMemory →
        Stops (T.at table.now) (sum_of_cells cells) OpFault.NoMemory (new - old) }
{
    match made {
        Ok(whole) => finished(alloc, table, whole),
        Err(fault) => Err(fault),
    }
}
