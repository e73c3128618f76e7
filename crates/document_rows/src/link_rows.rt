//! Rows of links.

ghost use Rattle.std.specs.Prelude.{◌≡◌, ◌≤◌, ◌<◌, ◌^◌, map, IfOk};
ghost use Rattle.csv.specs.Records.{fields_of};
ghost use Rattle.document_rows.specs.LinkRows as spec;
ghost use Rattle.document_rows.specs.Reads.{Tells, at, viewed};
ghost use Rattle.document_rows.specs.declared.fault.Column.TheVariants as column;
ghost use Rattle.table_cells.specs.Words.{words_of};

use crate::cells::{gap_in, time_in, time_or_zero, whole_between};
use crate::fault::{Column, RowError, Wrong, at};
use crate::heads::{LinkHead, cell};
use crate::port_rows::cell_or_empty;
use csv::ByteRecord;
use std::alloc::Global;
use table_cells::{Amount, words_in};

const LONGEST_FRAME: u64 = 1_048_576;

const LAST_PRIORITY: u64 = 7;

const LONGEST_PATH: usize = 64;

const BITS_IN_A_BYTE: u64 = 8;

/// What a row of links says beside its name: the gap in milliseconds, the largest frame in bytes, the jitter in
/// microseconds, the priority, the words of its path, the deadline in microseconds.
#[derive(Drop)]
pub struct LinkRow<'a> {
    pub gap: Amount,
    pub largest_frame: u64,
    pub jitter: Amount,
    pub priority: u64,
    pub path: Vec<&'a [u8]>,
    pub deadline: Option<Amount>,
}

/// A frame of so many bytes with those that go with it on the wire, in bits.
pub fn frame_on_wire(bytes: u64, overhead: u64) -> u64
    requires { (bytes ≤ 1048576) × (overhead ≤ 1048576) }
    ensures { result ≡ spec.frame_on_wire bytes overhead }
{
    (bytes + overhead) * BITS_IN_A_BYTE
}

fn priority_in(cell: &[u8]) -> Result<u64, Wrong>
    ensures { result ≡ spec.priority_in cell.now }
{
    if cell.is_empty() {
        return Ok(0);
    }
    whole_between(0, LAST_PRIORITY, cell)
}

fn path_of(words: Vec<&[u8]>) -> Result<Vec<&[u8]>, Wrong>
    ensures { viewed (λ v. map (λ word. word.now) v.items) result ≡ spec.path_of (map (λ word. word.now) words.entry.items) }
{
    if words.is_empty() {
        return Err(Wrong::Empty);
    }
    if words.len() > LONGEST_PATH {
        return Err(Wrong::PathTooLong);
    }
    Ok(words)
}

// The words of a path that a cell tells.
fn path_in(alloc: Global, cell: &[u8]) -> Result<Vec<&[u8]>, RowError>
    ensures { Tells (λ v. map (λ word. word.now) v.items) result
        (at column.Path (spec.path_of (words_of cell.now))) }
{
    let words = words_in(alloc, cell)?;
    Ok(at(Column::Path, path_of(words))?)
}

fn deadline_in(cell: &[u8]) -> Result<Option<Amount>, Wrong>
    ensures { result ≡ spec.deadline_in cell.now }
{
    if cell.is_empty() {
        return Ok(None);
    }
    Ok(Some(time_in(cell)?))
}

/// What a row of links says beside its name, or the first of its faults by columns.
#[tactic(auto, unfolding(crate::specs::LinkRows::link_row))]
pub fn link_row<'a>(
    alloc: Global,
    head: &LinkHead,
    row: &'a ByteRecord,
) -> Result<LinkRow<'a>, RowError>
    ensures { Tells spec.link_view result (spec.link_row head.now (fields_of row.now)) }
{
    let gap = at(Column::Bag, gap_in(cell(row, head.bag)))?;
    let largest_frame = at(
        Column::LargestFrame,
        whole_between(1, LONGEST_FRAME, cell(row, head.largest_frame)),
    )?;
    let jitter = at(Column::Jitter, time_or_zero(cell(row, head.jitter)))?;
    let priority = at(Column::Priority, priority_in(cell(row, head.priority)))?;
    let path = path_in(alloc, cell(row, head.path))?;
    let deadline = at(
        Column::Deadline,
        deadline_in(cell_or_empty(row, head.deadline)),
    )?;
    Ok(LinkRow {
        gap,
        largest_frame,
        jitter,
        priority,
        path,
        deadline,
    })
}
