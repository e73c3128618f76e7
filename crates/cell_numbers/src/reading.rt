//! Values that a table has.

ghost use Rattle.std.specs.Prelude.{◌≡◌, Some};
ghost use Rattle.net_cells.specs.Meanings.{curve, number};
ghost use Rattle.cell_numbers.specs.TableValues.{IsCurveAt, IsNumberAt};

use fraction128::Ext;
use net_cells::Cell;
use net_cells::cell_table::{Table, Value};
use std::rc::Rc;
use upp_curve::Curve;

/// The curve of a cell that has one.
pub fn curve_at<'a, T: Table<Value>>(table: &'a T, cell: Cell) -> &'a Rc<Curve>
    requires { IsCurveAt (T.at table.now) cell }
    ensures { T.at table.now cell ≡ Some (curve result.now.value) }
{
    let Some(value) = table.value(cell) else {
        unreachable!();
    };
    match value {
        Value::Curve(shared) => shared,
        Value::Number(_) => unreachable!(),
    }
}

/// The number of a cell that has one.
pub fn number_at<T: Table<Value>>(table: &T, cell: Cell) -> Ext
    requires { IsNumberAt (T.at table.now) cell }
    ensures { T.at table.now cell ≡ Some (number result) }
{
    let Some(value) = table.value(cell) else {
        unreachable!();
    };
    match value {
        Value::Curve(_) => unreachable!(),
        Value::Number(x) => *x,
    }
}
