//! Head lines: in which column what stands.

ghost use Rattle.std.specs.Prelude.{◌≡◌, ◌+◌, ◌<◌, ◌^◌, IfSome};
ghost use Rattle.csv.specs.Records.{fields_of};
ghost use Rattle.document_rows.specs.Heads as spec;
ghost use Rattle.document_rows.specs.Rows as rows;

use crate::fault::{CellFault, Column, Wrong, at};
use csv::ByteRecord;

/// Where the columns of ports stand.
#[derive(Clone, Copy)]
pub struct PortHead {
    pub width: usize,
    pub name: usize,
    pub rate: usize,
    pub latency: usize,
    pub link: usize,
    pub discipline: usize,
    pub gate: Option<usize>,
}

/// Where the columns of links stand.
#[derive(Clone, Copy)]
pub struct LinkHead {
    pub width: usize,
    pub name: usize,
    pub bag: usize,
    pub largest_frame: usize,
    pub jitter: usize,
    pub priority: usize,
    pub path: usize,
    pub deadline: Option<usize>,
}

/// The word of a column in a head line.
pub fn word_of(column: Column) -> &'static str
    ensures { result.now ≡ spec.word_of column }
{
    match column {
        Column::Name => "name",
        Column::Rate => "rate",
        Column::Latency => "latency",
        Column::Link => "link",
        Column::Discipline => "discipline",
        Column::Gate => "gate",
        Column::Bag => "bag",
        Column::LargestFrame => "largest_frame",
        Column::Jitter => "jitter",
        Column::Priority => "priority",
        Column::Path => "path",
        Column::Deadline => "deadline",
    }
}

/// The cell of a column, empty where the row is shorter.
pub(crate) fn cell(row: &ByteRecord, place: usize) -> &[u8]
    ensures { result.now ≡ rows.cell (fields_of row.now) place }
{
    match row.get(place) {
        Some(cell) => cell,
        None => b"",
    }
}

// Where a word stands first, from a place on.
fn find_from(head: &ByteRecord, word: &[u8], from: usize) -> Option<usize>
    ensures value { result ≡ spec.first_from word.now from (fields_of head.now) }
    ensures within { IfSome result (λ place. place + 1 < 2 ^ 64) }
{
    for place in from..head.len() {
        if word == cell(head, place) {
            return Some(place);
        }
    }
    None
}

// The place of a column, where it has one.
fn place_of(column: Column, head: &ByteRecord) -> Result<Option<usize>, Wrong>
    ensures { result ≡ spec.place_of column (fields_of head.now) }
{
    let word = word_of(column).as_bytes();
    let Some(place) = find_from(head, word, 0) else {
        return Ok(None);
    };
    match find_from(head, word, place + 1) {
        Some(_) => Err(Wrong::ColumnTwice),
        None => Ok(Some(place)),
    }
}

fn some_place(column: Column, head: &ByteRecord) -> Result<usize, Wrong>
    ensures { result ≡ spec.some_place column (fields_of head.now) }
{
    match place_of(column, head)? {
        Some(place) => Ok(place),
        None => Err(Wrong::Missing),
    }
}

// The place of a column that may be missing.
fn optional(column: Column, head: &ByteRecord) -> Result<Option<usize>, CellFault>
    ensures { result ≡ spec.optional column (fields_of head.now) }
{
    at(column, place_of(column, head))
}

// The place of a column that may not.
fn required(column: Column, head: &ByteRecord) -> Result<usize, CellFault>
    ensures { result ≡ spec.required column (fields_of head.now) }
{
    at(column, some_place(column, head))
}

/// Where the columns of ports stand in a head line, or the first that is wrong; other columns are left alone.
#[tactic(auto, unfolding(crate::specs::Heads::port_head))]
pub fn port_head(head: &ByteRecord) -> Result<PortHead, CellFault>
    ensures { result ≡ spec.port_head (fields_of head.now) }
{
    let name = required(Column::Name, head)?;
    let rate = required(Column::Rate, head)?;
    let latency = required(Column::Latency, head)?;
    let link = required(Column::Link, head)?;
    let discipline = required(Column::Discipline, head)?;
    let gate = optional(Column::Gate, head)?;
    let width = head.len();
    Ok(PortHead {
        width,
        name,
        rate,
        latency,
        link,
        discipline,
        gate,
    })
}

/// Where the columns of links stand in a head line, or the first that is wrong; other columns are left alone.
#[tactic(auto, unfolding(crate::specs::Heads::link_head))]
pub fn link_head(head: &ByteRecord) -> Result<LinkHead, CellFault>
    ensures { result ≡ spec.link_head (fields_of head.now) }
{
    let name = required(Column::Name, head)?;
    let bag = required(Column::Bag, head)?;
    let largest_frame = required(Column::LargestFrame, head)?;
    let jitter = required(Column::Jitter, head)?;
    let priority = required(Column::Priority, head)?;
    let path = required(Column::Path, head)?;
    let deadline = optional(Column::Deadline, head)?;
    let width = head.len();
    Ok(LinkHead {
        width,
        name,
        bag,
        largest_frame,
        jitter,
        priority,
        path,
        deadline,
    })
}
