//! Curves that are shared.

ghost use Rattle.std.specs.Prelude.{Ok};
ghost use Rattle.curve_call.specs.Again.{IsAgain};
ghost use Rattle.net_cells.specs.Formulas.{value_of};
ghost use Rattle.net_cells.specs.cell_table.Gives.{Gives};
ghost use Rattle.net_cells.specs.cell_table.Values.{answer_of, meaning_of};
ghost use Rattle.cell_eval.specs.Sharing.{IsShared};
ghost use Rattle.cell_numbers.specs.TableValues.{IsCurveAt};

use cell_numbers::curve_at;
use net_cells::Cell;
use net_cells::cell_table::{Table, Value};
use std::alloc::Global;
use std::rc::Rc;
use upp_curve::Curve;
use upp_limits::OpFault;

/// A curve that was made, to be shared from now on; a refusal stays.
pub fn shared(alloc: Global, made: Result<Curve, OpFault>) -> Result<Value, OpFault>
    ensures { IsShared made (answer_of meaning_of result) }
{
    match made {
        Ok(curve) => match Rc::new(alloc, curve) {
            Ok(handle) => Ok(Value::Curve(handle)),
            Err(_) => Err(OpFault::NoMemory),
        },
        Err(fault) => Err(fault),
    }
}

/// A shared curve, shared once more.
pub fn once_more(handle: &Rc<Curve>) -> Result<Value, OpFault>
    ensures { IsShared (Ok handle.now.value) (answer_of meaning_of result) }
{
    match handle.clone() {
        Ok(made) => Ok(Value::Curve(made)),
        Err(_) => Err(OpFault::NoMemory),
    }
}

/// A cell's curve, shared once more.
pub fn again<T: Table<Value>>(table: &T, cell: Cell) -> Result<Value, OpFault>
    requires { IsCurveAt (T.at table.now) cell }
    ensures { Gives (T.at table.now) (value_of cell) (answer_of meaning_of result) }
{
    once_more(curve_at(table, cell))
}

/// A curve of the network, once more.
pub fn copied(curve: &Curve) -> Result<Curve, OpFault>
    ensures { IsAgain curve.now result }
{
    match curve.copy() {
        Ok(made) => Ok(made),
        Err(_) => Err(OpFault::NoMemory),
    }
}
