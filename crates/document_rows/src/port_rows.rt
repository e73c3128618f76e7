//! Rows of ports.

ghost use Rattle.std.specs.Prelude.{◌≡◌};
ghost use Rattle.csv.specs.Records.{fields_of};
ghost use Rattle.table_cells.specs.Words.{words_of};
ghost use Rattle.document_rows.specs.Disciplines as disciplines;
ghost use Rattle.document_rows.specs.PortRows as spec;
ghost use Rattle.document_rows.specs.Reads.{Tells, at};
ghost use Rattle.document_rows.specs.declared.fault.Column.TheVariants as column;

use crate::cells::{link_time, rate_in, time_or_zero};
use crate::disciplines::{GateRow, discipline_of, gate_of};
use crate::fault::{Column, RowError, at};
use crate::heads::{PortHead, cell};
use csv::ByteRecord;
use std::alloc::Global;
use table_cells::{Amount, words_in};
use tree_network::Discipline;

/// What a row of ports says beside its name: the rate in Mbit/s, times in microseconds, exact.
#[derive(Drop)]
pub struct PortRow {
    pub rate: Amount,
    pub latency: Amount,
    pub link: Amount,
    pub discipline: Discipline,
    pub gate: Option<GateRow>,
}

/// The cell of a column that may be missing.
pub(crate) fn cell_or_empty(row: &ByteRecord, place: Option<usize>) -> &[u8]
    ensures { result.now ≡ spec.cell_or_empty (fields_of row.now) place }
{
    match place {
        Some(place) => cell(row, place),
        None => b"",
    }
}

// The discipline that the words of a cell tell.
fn discipline_in(alloc: Global, cell: &[u8]) -> Result<Discipline, RowError>
    ensures { Tells disciplines.discipline_view result
        (at column.Discipline (disciplines.discipline_of (words_of cell.now))) }
{
    let words = words_in(alloc, cell)?;
    discipline_of(alloc, &words)
}

// The gate that the words of a cell tell, where they tell one.
fn gate_in(alloc: Global, cell: &[u8]) -> Result<Option<GateRow>, RowError>
    ensures { Tells (λ gate. gate) result (at column.Gate (disciplines.gate_of (words_of cell.now))) }
{
    let words = words_in(alloc, cell)?;
    Ok(at(Column::Gate, gate_of(&words))?)
}

/// What a row of ports says beside its name, or the first of its faults by columns.
#[tactic(auto, unfolding(crate::specs::PortRows::port_row))]
pub fn port_row(alloc: Global, head: &PortHead, row: &ByteRecord) -> Result<PortRow, RowError>
    ensures { Tells spec.port_view result (spec.port_row head.now (fields_of row.now)) }
{
    let rate = at(Column::Rate, rate_in(cell(row, head.rate)))?;
    let latency = at(Column::Latency, time_or_zero(cell(row, head.latency)))?;
    let link = at(Column::Link, link_time(cell(row, head.link)))?;
    let discipline = discipline_in(alloc, cell(row, head.discipline))?;
    let gate = gate_in(alloc, cell_or_empty(row, head.gate))?;
    Ok(PortRow {
        rate,
        latency,
        link,
        discipline,
        gate,
    })
}
