//! The rows of a table, one after another.

ghost use Rattle.std.specs.Prelude.{◌≡◌, [], map, IfOk};
ghost use Rattle.csv_rows.specs.Coming as spec;
ghost use Rattle.csv_rows.specs.Rows.{AreLinedRowsOf, lined_of};

use crate::lines::{Lines, lines_of};
use crate::rows::{TableRow, is_blank, tighten};
use csv::{ByteRecord, Reader, ReaderBuilder};
use std::alloc::{AllocError, Global};

/// Reads the rows of a text of which some cell is not empty, one at a time.
#[derive(Drop)]
pub struct TableRows<'a> {
    reader: Reader<&'a [u8]>,
    lines: Lines<'a>,
}

/// Before the first row of a text.
pub fn table_rows(alloc: Global, text: &[u8]) -> TableRows<'_>
    ensures stands { spec.Stands result }
    ensures rows { AreLinedRowsOf text.now (spec.rows_of result) }
{
    let reader = ReaderBuilder::new()
        .has_headers(false)
        .flexible(true)
        .from_reader(alloc, text);
    TableRows {
        reader,
        lines: lines_of(text),
    }
}

/// A row without cells, to be read into.
pub fn no_row(alloc: Global) -> TableRow
    ensures { lined_of result ≡ (0, []) }
{
    TableRow {
        line: 0,
        cells: ByteRecord::new(alloc),
    }
}

impl TableRows<'_> {
    // Reads the next row as it is in the text, and tells whether there is one.
    fn read_row(&mut self, row: &mut TableRow) -> Result<bool, AllocError>
        requires { spec.Stands self.old }
        ensures { IfOk result (λ found. spec.Reads found self.old row.new self.new) }
    {
        // Bytes in memory can always be read and no length of rows is asked for: what is left is want of memory.
        let Ok(found) = self.reader.read_byte_record(&mut row.cells) else {
            return Err(AllocError);
        };
        if !found {
            return Ok(false);
        }
        row.line = self.lines.next_line();
        Ok(true)
    }

    /// Reads the next row of which some cell is not empty, with the line on which it begins and each cell without the
    /// white space at both ends, and tells whether there is one.
    pub fn next_row(&mut self, row: &mut TableRow) -> Result<bool, AllocError>
        requires { spec.Stands self.old }
        ensures { IfOk result (λ found. spec.Gives found self.old row.new self.new) }
    {
        while self.read_row(row)? {
            tighten(&mut row.cells)?;
            if !is_blank(&row.cells) {
                return Ok(true);
            }
        }
        Ok(false)
    }
}

/// The rows of a text of which some cell is not empty, each with the line on which it begins.
pub fn read_table(alloc: Global, text: &[u8]) -> Result<Vec<TableRow>, AllocError>
    ensures { IfOk result (λ rows. AreLinedRowsOf text.now (map lined_of rows.items)) }
{
    let mut reader = table_rows(alloc, text);
    let mut rows = Vec::new(alloc);
    let mut row = no_row(alloc);
    while reader.next_row(&mut row)? {
        rows.push(row)?;
        row = no_row(alloc);
    }
    Ok(rows)
}
