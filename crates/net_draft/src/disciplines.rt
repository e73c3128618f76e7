//! Disciplines of servers.

ghost use Rattle.std.specs.Prelude.{◌≡◌, [], map, codes, IfOk, All, length, ◌≤◌};
ghost use Rattle.toml.specs.View.{view, table_view};
ghost use Rattle.net_model.specs.Views.{discipline_of};
ghost use Rattle.net_model.specs.Accepted.{HasFewQueues, IsLength, IsQueueNumber};
ghost use Rattle.net_draft.specs.Faults.{Gives, nth};
ghost use Rattle.net_draft.specs.Tables.{each, forbidden, quantum_at, quanta_of, discipline_at};
ghost use Rattle.net_draft.specs.Tables.{fifo_at, priority_at, drr_at};

use crate::fault::DraftFault;
use crate::keys::{field, required_list, required_whole};
use crate::limits::{LONGEST, MOST_QUEUES};
use crate::places::{fault_nth, fault_under, under};
use crate::values::whole_in;
use crate::words::{DisciplineWord, discipline_kind};
use net_model::{Discipline, NetKind};
use std::alloc::Global;
use toml::{Table, Value};

/// Nothing where a table lacks a key, which only servers of another discipline may have.
fn forbidden(alloc: Global, table: &Table, place: &str, key: &str) -> Result<(), DraftFault>
    ensures { Gives (λ _. tt) result (forbidden key.now place.now (table_view table.now)) }
{
    match field(table, key) {
        None => Ok(()),
        Some(_) => Err(fault_under(alloc, NetKind::M3, place, key)),
    }
}

/// The quantum that an entry of the array at a place is, the one of this number.
fn quantum_of(alloc: Global, place: &str, number: usize, value: &Value) -> Result<u64, DraftFault>
    ensures value { Gives (λ n. n) result (quantum_at (nth place.now number) (view value.now)) }
    ensures range { IfOk result IsLength }
{
    match whole_in(value, 1, LONGEST) {
        Ok(bits) => Ok(bits as u64),
        Err(kind) => Err(fault_nth(alloc, kind, place, number)),
    }
}

fn each_quantum(alloc: Global, place: &str, entries: &[Value]) -> Result<Vec<u64>, DraftFault>
    ensures value { Gives (λ v. v.items) result (each (λ before. quantum_at) place.now [] (map view entries.now)) }
    ensures count { IfOk result (λ v. length v.items ≡ length entries.now) }
    ensures range { IfOk result (λ v. All IsLength v.items) }
{
    let mut quanta = Vec::new(alloc);
    for entry in entries {
        let bits = quantum_of(alloc, place, quanta.len(), entry)?;
        quanta.push(bits)?;
    }
    Ok(quanta)
}

#[tactic(auto, unfolding(crate::specs::Tables::quanta_of))]
fn quanta_of(alloc: Global, table: &Table, place: &str) -> Result<Vec<u64>, DraftFault>
    ensures value { Gives (λ v. v.items) result (quanta_of place.now (table_view table.now)) }
    ensures count { IfOk result (λ v. IsQueueNumber (length v.items)) }
    ensures range { IfOk result (λ v. All IsLength v.items) }
{
    let entries = required_list(alloc, table, place, "quanta", 1, MOST_QUEUES)?;
    let here = under(alloc, place, "quanta")?;
    each_quantum(alloc, here.as_str(), entries)
}

#[tactic(auto, unfolding(crate::specs::Tables::fifo_at))]
fn fifo(alloc: Global, table: &Table, place: &str) -> Result<Discipline, DraftFault>
    ensures value { Gives discipline_of result (fifo_at place.now (table_view table.now)) }
    ensures range { IfOk result (λ d. HasFewQueues (discipline_of d)) }
{
    forbidden(alloc, table, place, "queues")?;
    forbidden(alloc, table, place, "quanta")?;
    Ok(Discipline::Fifo)
}

#[tactic(auto, unfolding(crate::specs::Tables::priority_at))]
fn priority(alloc: Global, table: &Table, place: &str) -> Result<Discipline, DraftFault>
    ensures value { Gives discipline_of result (priority_at place.now (table_view table.now)) }
    ensures range { IfOk result (λ d. HasFewQueues (discipline_of d)) }
{
    let queues = required_whole(alloc, table, place, "queues", 1, MOST_QUEUES as u32)?;
    forbidden(alloc, table, place, "quanta")?;
    Ok(Discipline::Priority { queues })
}

#[tactic(auto, unfolding(crate::specs::Tables::drr_at))]
fn drr(alloc: Global, table: &Table, place: &str) -> Result<Discipline, DraftFault>
    ensures value { Gives discipline_of result (drr_at place.now (table_view table.now)) }
    ensures range { IfOk result (λ d. HasFewQueues (discipline_of d)) }
{
    forbidden(alloc, table, place, "queues")?;
    let quanta = quanta_of(alloc, table, place)?;
    Ok(Discipline::Drr { quanta })
}

/// The discipline of the server whose table stands at a place.
#[tactic(auto, unfolding(crate::specs::Tables::discipline_at))]
pub(crate) fn discipline_at(
    alloc: Global,
    table: &Table,
    place: &str,
) -> Result<Discipline, DraftFault>
    ensures value { Gives discipline_of result (discipline_at place.now (table_view table.now)) }
    ensures range { IfOk result (λ d. HasFewQueues (discipline_of d)) }
{
    match discipline_kind(alloc, table, place)? {
        DisciplineWord::Fifo => fifo(alloc, table, place),
        DisciplineWord::Priority => priority(alloc, table, place),
        DisciplineWord::Drr => drr(alloc, table, place),
    }
}
