//! Values of cells.

ghost use Rattle.net_cells.specs.cell_table.Values.{meaning_of};

use crate::cell_table::table::CellValue;
use fraction128::Ext;
use std::rc::Rc;
use upp_curve::Curve;

/// What a cell has: a curve, which other cells may share, or a number, which may be infinite.
#[derive(Drop)]
pub enum Value {
    Curve(Rc<Curve>),
    Number(Ext),
}

impl CellValue for Value {
    ghost meaning = { meaning_of };
}
