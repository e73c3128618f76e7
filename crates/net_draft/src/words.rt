//! The words that say which keys a table has.

ghost use Rattle.std.specs.Prelude.{◌≡◌, codes};
ghost use Rattle.toml.specs.View.{view, table_view};
ghost use Rattle.net_draft.specs.Faults.{Gives};
ghost use Rattle.net_draft.specs.Values.{at_key, required, optional};
ghost use Rattle.net_draft.specs.Tables.{service_word, arrival_word, discipline_word};
ghost use Rattle.net_draft.specs.declared.words.DisciplineWord.TheVariants.{Fifo};

use crate::fault::DraftFault;
use crate::keys::{field, required_at, value_at};
use crate::places::fault_under;
use crate::values::text_in;
use net_model::NetKind;
use std::alloc::Global;
use toml::{Table, Value};

/// How a service curve is given.
#[derive(Clone, Copy)]
pub enum ServiceWord {
    Latency,
    Gate,
    List,
}

/// How an arrival curve is given.
#[derive(Clone, Copy)]
pub enum ArrivalWord {
    Bucket,
    Stair,
    List,
}

/// How a server chooses.
#[derive(Clone, Copy)]
pub enum DisciplineWord {
    Fifo,
    Priority,
    Drr,
}

fn service_word(value: &Value) -> Result<ServiceWord, NetKind>
    ensures { result ≡ service_word (view value.now) }
{
    let text = text_in(value)?;
    if text == "latency" {
        return Ok(ServiceWord::Latency);
    }
    if text == "gate" {
        return Ok(ServiceWord::Gate);
    }
    if text == "list" {
        return Ok(ServiceWord::List);
    }
    Err(NetKind::M6)
}

fn arrival_word(value: &Value) -> Result<ArrivalWord, NetKind>
    ensures { result ≡ arrival_word (view value.now) }
{
    let text = text_in(value)?;
    if text == "bucket" {
        return Ok(ArrivalWord::Bucket);
    }
    if text == "stair" {
        return Ok(ArrivalWord::Stair);
    }
    if text == "list" {
        return Ok(ArrivalWord::List);
    }
    Err(NetKind::M6)
}

fn discipline_word(value: &Value) -> Result<DisciplineWord, NetKind>
    ensures { result ≡ discipline_word (view value.now) }
{
    let text = text_in(value)?;
    if text == "fifo" {
        return Ok(DisciplineWord::Fifo);
    }
    if text == "priority" {
        return Ok(DisciplineWord::Priority);
    }
    if text == "drr" {
        return Ok(DisciplineWord::Drr);
    }
    Err(NetKind::M6)
}

/// The kind of a service.
pub(crate) fn service_kind(
    alloc: Global,
    table: &Table,
    place: &str,
) -> Result<ServiceWord, DraftFault>
    ensures { Gives (λ w. w) result (at_key (codes "kind") (required service_word) place.now (table_view table.now)) }
{
    required_at!(alloc, table, place, "kind", |value| service_word(value))
}

/// The kind of an arrival.
pub(crate) fn arrival_kind(
    alloc: Global,
    table: &Table,
    place: &str,
) -> Result<ArrivalWord, DraftFault>
    ensures { Gives (λ w. w) result (at_key (codes "kind") (required arrival_word) place.now (table_view table.now)) }
{
    required_at!(alloc, table, place, "kind", |value| arrival_word(value))
}

/// The kind of a discipline; without a word it is first in, first out.
pub(crate) fn discipline_kind(
    alloc: Global,
    table: &Table,
    place: &str,
) -> Result<DisciplineWord, DraftFault>
    ensures { Gives (λ w. w) result
        (at_key (codes "discipline") (optional discipline_word Fifo) place.now (table_view table.now)) }
{
    value_at!(
        alloc,
        table,
        place,
        "discipline",
        Ok(DisciplineWord::Fifo),
        |value| discipline_word(value)
    )
}
