//! The rows of a table.

ghost use Rattle.std.specs.Prelude.{◌≡◌, ◌<◌, false, length, map, get_or, OnOk};
ghost use Rattle.std.specs.Char.{is_ascii_whitespace};
ghost use Rattle.csv.specs.Records.{fields_of, trimmed};
ghost use Rattle.csv_rows.specs.Rows as spec;

use csv::ByteRecord;
use std::alloc::AllocError;

/// A row: the line on which it begins, from 1, and its cells without the white space at both ends.
#[derive(Drop)]
pub struct TableRow {
    pub line: usize,
    pub cells: ByteRecord,
}

/// The cell of a column, empty where the row is shorter.
pub fn cell(row: &ByteRecord, place: usize) -> &[u8]
    ensures { result.now ≡ spec.cell (fields_of row.now) place }
{
    match row.get(place) {
        Some(cell) => cell,
        None => b"",
    }
}

/// Whether all cells of a row are empty.
pub(crate) fn is_blank(row: &ByteRecord) -> bool
    ensures { result ≡ spec.is_blank (fields_of row.now) }
{
    for place in 0..row.len() {
        if !cell(row, place).is_empty() {
            return false;
        }
    }
    true
}

// Whether a byte of a cell is white space.
fn is_white(cell: &[u8], at: usize) -> bool
    requires { at < length cell.now }
    ensures { result ≡ is_ascii_whitespace (get_or cell.now at 0) }
{
    cell[at].is_ascii_whitespace()
}

// Whether a cell has white space at an end.
fn is_loose(cell: &[u8]) -> bool
    ensures { result ≡ false → trimmed cell.now ≡ cell.now }
{
    if cell.is_empty() {
        return false;
    }
    if is_white(cell, 0) {
        return true;
    }
    is_white(cell, cell.len() - 1)
}

// Whether some cell of a row has white space at an end.
fn some_loose(row: &ByteRecord) -> bool
    ensures { result ≡ false → map trimmed (fields_of row.now) ≡ fields_of row.now }
{
    for place in 0..row.len() {
        if is_loose(cell(row, place)) {
            return true;
        }
    }
    false
}

/// Takes the white space off both ends of each cell.
pub(crate) fn tighten(row: &mut ByteRecord) -> Result<(), AllocError>
    ensures { OnOk result (fields_of row.new ≡ map trimmed (fields_of row.old)) }
{
    if !some_loose(row) {
        return Ok(());
    }
    row.trim()
}
