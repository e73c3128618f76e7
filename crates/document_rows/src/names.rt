//! Names of rows.

ghost use Rattle.std.specs.Prelude.{◌≡◌};
ghost use Rattle.csv.specs.Records.{fields_of};
ghost use Rattle.document_rows.specs.Cells as cells;
ghost use Rattle.document_rows.specs.Reads.{viewed};
ghost use Rattle.document_rows.specs.Heads as heads;

use crate::fault::{CellFault, Column, Wrong, at};
use crate::heads::cell;
use csv::ByteRecord;
use table_cells::{is_name, name_text};

fn name_in(cell: &[u8]) -> Result<&str, Wrong>
    ensures { viewed (λ name. name.now) result ≡ cells.name_in cell.now }
{
    if cell.is_empty() {
        return Err(Wrong::Empty);
    }
    if !is_name(cell) {
        return Err(Wrong::NoName);
    }
    Ok(name_text(cell))
}

/// The name of a row under a head line of so many cells, of which it has no more.
pub fn row_name(width: usize, place: usize, row: &ByteRecord) -> Result<&str, CellFault>
    ensures { viewed (λ name. name.now) result ≡ heads.row_name width place (fields_of row.now) }
{
    if row.len() > width {
        return Err(CellFault {
            column: Column::Name,
            wrong: Wrong::TooManyCells,
        });
    }
    at(Column::Name, name_in(cell(row, place)))
}
