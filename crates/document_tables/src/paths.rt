//! The ports of a path.

ghost use Rattle.std.specs.Prelude.{◌≡◌, ◌==◌, false, map, length, IfOk};
ghost use Rattle.std.specs.List.{list_any};
ghost use Rattle.document_rows.specs.declared.fault.Column.TheVariants as column;
ghost use Rattle.document_rows.specs.Disciplines.{discipline_view};
ghost use Rattle.document_rows.specs.Reads.{Tells, at};
ghost use Rattle.document_tables.specs.Paths as spec;
ghost use Rattle.document_tables.specs.Growing.{HasOwnPorts};
ghost use Rattle.document_tables.specs.Ports.{ports_view};

use crate::names::number_near;
use crate::ports::PortTable;
use document_rows::{CellFault, Column, RowError, Wrong};
use std::alloc::Global;
use table_cells::{is_name, name_text, word_at};
use tree_network::Discipline;

/// The queue of a link of a priority: the only one, or that of the priority.
pub(crate) fn queue_at(discipline: &Discipline, priority: usize) -> usize
    ensures { result ≡ spec.queue_at (discipline_view discipline.now) priority }
{
    if discipline.queue_count() == 1 {
        0
    } else {
        priority
    }
}

// Whether a frame is longer than the quantum of its queue.
fn passes_quantum(discipline: &Discipline, queue: usize, frame: u64) -> bool
    ensures { result ≡ spec.passes_quantum (discipline_view discipline.now) queue frame }
{
    match discipline {
        Discipline::Drr(quanta) => match quanta.get(queue) {
            Some(quantum) => *quantum < frame,
            None => false,
        },
        _ => false,
    }
}

// Looks whether a port takes frames: it is the one at a place of a path, counted from 1.
fn takes(
    place: usize,
    discipline: &Discipline,
    priority: usize,
    frame: u64,
    number: usize,
) -> Result<usize, Wrong>
    ensures value { result ≡ spec.takes place (discipline_view discipline.now)
        (spec.queue_at (discipline_view discipline.now) priority) frame number }
    ensures same { IfOk result (λ n. n ≡ number) }
{
    let queue = queue_at(discipline, priority);
    if discipline.queue_count() <= queue {
        return Err(Wrong::NoSuchQueue(place));
    }
    if passes_quantum(discipline, queue, frame) {
        return Err(Wrong::QuantumTooShort(place));
    }
    Ok(number)
}

// The number of the port that a word names, which may be this one.
fn port_named(table: &PortTable, word: &[u8], near: usize) -> Option<usize>
    ensures { result ≡ spec.port_named table.now.names word.now }
{
    if !is_name(word) {
        return None;
    }
    number_near(&table.names, name_text(word), near)
}

// The number of the port behind those before it in a path, which may be a near one.
fn next_port(
    table: &PortTable,
    priority: usize,
    frame: u64,
    before: &[usize],
    word: &[u8],
    near: usize,
) -> Result<usize, Wrong>
    ensures value { result ≡ spec.next_port (ports_view table.now) priority frame before.now word.now }
    ensures own { IfOk result (λ n. list_any (λ m. m == n) before.now ≡ false) }
{
    let place = before.len() + 1;
    let Some(number) = port_named(table, word, near) else {
        return Err(Wrong::UnknownPort(place));
    };
    if before.contains(&number) {
        return Err(Wrong::PortTwice(place));
    }
    match table.ports.get(number) {
        Some(port) => takes(place, &port.discipline, priority, frame, number),
        None => Err(Wrong::UnknownPort(place)),
    }
}

/// No port has this number.
const NOWHERE: usize = usize::MAX;

// Whether the last of these ports is at its place in another path too.
fn goes_along(path: &[usize], before: &[usize]) -> bool {
    let Some(last) = before.last() else {
        return true;
    };
    match path.get(before.len().saturating_sub(1)) {
        Some(number) => *number == *last,
        None => false,
    }
}

// Where the next port behind these is looked for first: at its place in a path that may be alike, as long as both go along.
fn near_at(path: &[usize], before: &[usize]) -> usize {
    if !goes_along(path, before) {
        return NOWHERE;
    }
    match path.get(before.len()) {
        Some(number) => *number,
        None => NOWHERE,
    }
}

/// The numbers of the ports of a path, of a link of a priority and a frame. Those that it shares with a near path, place by
/// place, are found at once.
pub(crate) fn path_ports(
    alloc: Global,
    table: &PortTable,
    priority: usize,
    frame: u64,
    words: &[&[u8]],
    near: &[usize],
) -> Result<Vec<usize>, RowError>
    ensures value { Tells (λ path. path.items) result
        (at column.Path (spec.path_ports (ports_view table.now) priority frame (map (λ word. word.now) words.now))) }
    ensures own { IfOk result (λ path. HasOwnPorts path.items) }
    ensures all { IfOk result (λ path. length path.items ≡ length words.now) }
{
    let mut path = Vec::with_capacity(alloc, words.len())?;
    for place in 0..words.len() {
        match next_port(
            table,
            priority,
            frame,
            &path,
            word_at(words, place),
            near_at(near, &path),
        ) {
            Ok(number) => path.push(number)?,
            Err(wrong) => return Err(RowError::Cell(CellFault {
                column: Column::Path,
                wrong,
            })),
        }
    }
    Ok(path)
}
