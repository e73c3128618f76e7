//! Disciplines and gates of ports.

ghost use Rattle.std.specs.Prelude.{◌≡◌, ◌≤◌, map, IfSome};
ghost use Rattle.document_rows.specs.Disciplines as spec;
ghost use Rattle.document_rows.specs.Reads.{Tells, at, Finds};
ghost use Rattle.document_rows.specs.declared.fault.Column.TheVariants as column;
ghost use Rattle.document_rows.specs.declared.fault.RowError.TheVariants as errors;
ghost use Rattle.document_rows.specs.declared.fault.Wrong.TheVariants as wrongs;

use crate::cells::time_in;
use crate::fault::{CellFault, Column, RowError, Wrong};
use std::alloc::{AllocError, Global};
use table_cells::{Amount, whole_in, word_at};
use tree_network::Discipline;

const MOST_QUEUES: u64 = 8;

const LONGEST_QUANTUM: u64 = 2_097_152;

const BITS_IN_A_BYTE: u64 = 8;

/// When a port may send: for the slot at the end of each cycle, in microseconds.
#[derive(Clone, Copy)]
pub struct GateRow {
    pub cycle: Amount,
    pub slot: Amount,
}

fn whole_of(least: u64, most: u64, word: &[u8]) -> Option<u64>
    ensures value { result ≡ spec.whole_of least most word.now }
    ensures range { IfSome result (λ n. n ≤ most) }
{
    let n = whole_in(word)?;
    if least <= n && n <= most {
        Some(n)
    } else {
        None
    }
}

fn quantum_in(word: &[u8]) -> Option<u64>
    ensures { result ≡ spec.quantum_in word.now }
{
    let bytes = whole_of(1, LONGEST_QUANTUM, word)?;
    Some(bytes * BITS_IN_A_BYTE)
}

// The quanta of words, in bits.
fn quanta_of(alloc: Global, words: &[&[u8]]) -> Result<Option<Vec<u64>>, AllocError>
    ensures { Finds (λ v. v.items) result (spec.quanta_of (map (λ word. word.now) words.now)) }
{
    let mut quanta = Vec::new(alloc);
    for place in 0..words.len() {
        match quantum_in(word_at(words, place)) {
            Some(quantum) => quanta.push(quantum)?,
            None => return Ok(None),
        }
    }
    Ok(Some(quanta))
}

// No discipline stands in the column.
fn no_discipline() -> RowError
    ensures { result ≡ errors.Cell (record { column = column.Discipline; wrong = wrongs.NoDiscipline }) }
{
    RowError::Cell(CellFault {
        column: Column::Discipline,
        wrong: Wrong::NoDiscipline,
    })
}

fn quanta_in(alloc: Global, words: &[&[u8]]) -> Result<Discipline, RowError>
    ensures { Tells spec.discipline_view result
        (at column.Discipline (spec.quanta_in (map (λ word. word.now) words.now))) }
{
    if words.is_empty() || words.len() as u64 > MOST_QUEUES {
        return Err(no_discipline());
    }
    match quanta_of(alloc, words)? {
        Some(quanta) => Ok(Discipline::Drr(quanta)),
        None => Err(no_discipline()),
    }
}

fn queues_in(words: &[&[u8]]) -> Result<Discipline, RowError>
    ensures { Tells spec.discipline_view result
        (at column.Discipline (spec.queues_in (map (λ word. word.now) words.now))) }
{
    if words.len() != 1 {
        return Err(no_discipline());
    }
    match whole_of(1, MOST_QUEUES, word_at(words, 0)) {
        Some(queues) => Ok(Discipline::Priority(queues as usize)),
        None => Err(no_discipline()),
    }
}

/// A discipline: `fifo` (also nothing), `priority N` or `drr Q0 Q1 ..` with quanta in bytes.
pub(crate) fn discipline_of(alloc: Global, words: &[&[u8]]) -> Result<Discipline, RowError>
    ensures { Tells spec.discipline_view result
        (at column.Discipline (spec.discipline_of (map (λ word. word.now) words.now))) }
{
    let [word, rest @ ..] = words else {
        return Ok(Discipline::Fifo);
    };
    if *word == b"priority".as_slice() {
        return queues_in(rest);
    }
    if *word == b"drr".as_slice() {
        return quanta_in(alloc, rest);
    }
    if *word == b"fifo".as_slice() && rest.is_empty() {
        return Ok(Discipline::Fifo);
    }
    Err(no_discipline())
}

fn gate_with(cycle: Amount, slot: Amount) -> Result<Option<GateRow>, Wrong>
    ensures { result ≡ spec.gate_with cycle slot }
{
    if !slot.reaches_one(1_000_000) {
        return Err(Wrong::TooSmall);
    }
    if !slot.is_within(cycle) {
        return Err(Wrong::SlotTooLong);
    }
    Ok(Some(GateRow { cycle, slot }))
}

fn gate_times(cycle: &[u8], slot: &[u8]) -> Result<Option<GateRow>, Wrong>
    ensures { result ≡ spec.gate_times cycle.now slot.now }
{
    let cycle = time_in(cycle)?;
    let slot = time_in(slot)?;
    gate_with(cycle, slot)
}

/// A gate: `CYCLE SLOT`, where there is one.
pub(crate) fn gate_of(words: &[&[u8]]) -> Result<Option<GateRow>, Wrong>
    ensures { result ≡ spec.gate_of (map (λ word. word.now) words.now) }
{
    match words {
        [] => Ok(None),
        [cycle, slot] => gate_times(*cycle, *slot),
        _ => Err(Wrong::NoGate),
    }
}
