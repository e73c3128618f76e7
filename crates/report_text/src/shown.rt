//! Values that a report can show.

ghost use Rattle.std.specs.Prelude.{◌≡◌, option_copied};
ghost use Rattle.report_text.specs.Shown.{number_in};

use fraction128::Ext;
use net_cells::cell_table::{CellValue, Value};

/// A value of a cell whose number can be read.
pub trait ShownValue: CellValue {
    /// The number that it is; none exactly where it is a curve.
    fn number(&self) -> Option<&Ext>
        ensures { option_copied result ≡ number_in (Self.meaning self.now) };
}

impl ShownValue for Value {
    fn number(&self) -> Option<&Ext> {
        match self {
            Value::Curve(_) => None,
            Value::Number(number) => Some(number),
        }
    }
}
