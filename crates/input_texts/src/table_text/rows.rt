//! The rows of a text.

ghost use Rattle.std.specs.Prelude.{◌≡◌, ◌<◌, ◌^◌, ◌++◌, ◌∷◌, [], Ok, IfOk, IfErr, OnOk, map, take, true};
ghost use Rattle.std.specs.List.{list_all};
ghost use Rattle.csv.specs.Records.{fields_of};
ghost use Rattle.input_texts.specs.table_text.Rows as spec;
ghost use Rattle.input_texts.specs.declared.table_text.fault.TableKind.TheVariants.{NoMemory};

use crate::table_text::fault::TableKind;
use csv::{ByteRecord, ReaderBuilder};
use std::alloc::Global;

/// Puts a row that was read behind others.
fn push_row(
    rows: &mut Vec<ByteRecord>,
    row: Result<ByteRecord, csv::Error>,
) -> Result<(), TableKind>
    ensures pushed { OnOk result ((r : _) × (row ≡ Ok r) × (rows.new.items ≡ rows.old.items ++ r ∷ [])) }
    ensures refused { IfErr result (λ kind. kind ≡ NoMemory) }
{
    match row {
        Ok(row) => {
            rows.push(row)?;
            Ok(())
        }
        // Bytes in memory can always be read and no length of rows is asked for: what is left is want of memory.
        Err(_) => Err(TableKind::NoMemory),
    }
}

/// The first rows of a text, as many as there are up to a number.
pub fn first_rows(alloc: Global, text: &[u8], most: usize) -> Result<Vec<ByteRecord>, TableKind>
    ensures rows { IfOk result (λ rows. map fields_of rows.items ≡ take most (spec.rows_of text.now)) }
    ensures refused { IfErr result (λ kind. kind ≡ NoMemory) }
{
    let reader = ReaderBuilder::new()
        .has_headers(false)
        .flexible(true)
        .from_reader(alloc, text);
    let mut rows = Vec::new(alloc);
    for row in reader.into_byte_records() {
        if rows.len() == most {
            return Ok(rows);
        }
        push_row(&mut rows, row)?;
    }
    Ok(rows)
}

/// Whether all bytes of a row are spaces or visible characters of ASCII.
pub fn is_plain(row: &ByteRecord) -> bool
    ensures { result ≡ spec.is_plain (fields_of row.now) }
{
    for field in row {
        if !crate::plain_text::is_plain(field) {
            return false;
        }
    }
    true
}

/// The text of a field, empty where there is none.
pub fn text_at(row: &ByteRecord, place: usize) -> &str
    requires { spec.is_plain (fields_of row.now) ≡ true }
    ensures { result.now ≡ spec.field (fields_of row.now) place }
{
    match row.get(place) {
        None => "",
        Some(bytes) => match str::from_utf8(bytes) {
            Ok(text) => text,
            Err(_) => unreachable!(),
        },
    }
}
