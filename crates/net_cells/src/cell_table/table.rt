//! What a table of values is.

ghost use Rattle.std.specs.Prelude.{◌≡◌, option_copied};
ghost use Rattle.std.specs.Option.{option_map};
ghost use Rattle.net_cells.specs.Meanings.{Meaning, CellTable};

use crate::Cell;

/// A value of a cell.
pub trait CellValue {
    /// The curve or the number that it stands for.
    ghost meaning: { Self → Meaning };
}

/// Values by cell.
pub trait Table<V: CellValue> {
    /// What each cell has, if anything.
    ghost at: { Self → CellTable };

    /// The value of a cell; none exactly where the table has none.
    fn value(&self, cell: Cell) -> Option<&V>
        ensures { option_map V.meaning (option_copied result) ≡ at self.now cell };
}
