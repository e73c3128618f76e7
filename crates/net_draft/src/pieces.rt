//! The pieces and the tail of a listed curve.

ghost use Rattle.std.specs.Prelude.{◌≡◌, [], map, codes};
ghost use Rattle.toml.specs.View.{view, table_view};
ghost use Rattle.net_draft.specs.Faults.{Gives, nth};
ghost use Rattle.net_draft.specs.Tables.{each, piece_at, pieces_of, tail_at, tail_of};

use crate::fault::DraftFault;
use crate::keys::{field, number_or, only, required_list, required_number, table_at};
use crate::limits::MOST_PIECES;
use crate::places::{nth, under};
use curve_library::{PieceText, TailText};
use fraction128::Frac;
use std::alloc::Global;
use toml::{Table, Value};

#[tactic(auto, unfolding(crate::specs::Tables::piece_at))]
fn piece_of(alloc: Global, place: &str, value: &Value) -> Result<PieceText, DraftFault>
    ensures { Gives (λ p. p) result (piece_at place.now (view value.now)) }
{
    let table = table_at(alloc, place, value)?;
    only(alloc, table, place, &["x", "at", "after", "slope"])?;
    let x = required_number(alloc, table, place, "x")?;
    let at = required_number(alloc, table, place, "at")?;
    let after = number_or(alloc, table, place, "after", at)?;
    let slope = number_or(alloc, table, place, "slope", Frac::zero())?;
    Ok(PieceText {
        x,
        at,
        after,
        slope,
    })
}

/// The piece that an entry of the array at a place is, the one of this number.
fn piece_in(
    alloc: Global,
    place: &str,
    number: usize,
    value: &Value,
) -> Result<PieceText, DraftFault>
    ensures { Gives (λ p. p) result (piece_at (nth place.now number) (view value.now)) }
{
    let here = nth(alloc, place, number)?;
    piece_of(alloc, here.as_str(), value)
}

fn each_piece(alloc: Global, place: &str, entries: &[Value]) -> Result<Vec<PieceText>, DraftFault>
    ensures { Gives (λ v. v.items) result (each (λ before. piece_at) place.now [] (map view entries.now)) }
{
    let mut pieces = Vec::new(alloc);
    for entry in entries {
        let piece = piece_in(alloc, place, pieces.len(), entry)?;
        pieces.push(piece)?;
    }
    Ok(pieces)
}

/// The pieces of the curve whose table stands at a place.
#[tactic(auto, unfolding(crate::specs::Tables::pieces_of))]
pub(crate) fn pieces_of(
    alloc: Global,
    table: &Table,
    place: &str,
) -> Result<Vec<PieceText>, DraftFault>
    ensures { Gives (λ v. v.items) result (pieces_of place.now (table_view table.now)) }
{
    let entries = required_list(alloc, table, place, "piece", 0, MOST_PIECES)?;
    let here = under(alloc, place, "piece")?;
    each_piece(alloc, here.as_str(), entries)
}

#[tactic(auto, unfolding(crate::specs::Tables::tail_at))]
fn tail_at(alloc: Global, place: &str, value: &Value) -> Result<TailText, DraftFault>
    ensures { Gives (λ t. t) result (tail_at place.now (view value.now)) }
{
    let table = table_at(alloc, place, value)?;
    only(alloc, table, place, &["rank", "period", "rise"])?;
    let rank = required_number(alloc, table, place, "rank")?;
    let period = required_number(alloc, table, place, "period")?;
    let rise = required_number(alloc, table, place, "rise")?;
    Ok(TailText { rank, period, rise })
}

/// The tail of the curve whose table stands at a place, if it has one.
#[tactic(auto, unfolding(crate::specs::Tables::tail_or_none))]
pub(crate) fn tail_of(
    alloc: Global,
    table: &Table,
    place: &str,
) -> Result<Option<TailText>, DraftFault>
    ensures { Gives (λ t. t) result (tail_of place.now (table_view table.now)) }
{
    match field(table, "tail") {
        None => Ok(None),
        Some(value) => {
            let here = under(alloc, place, "tail")?;
            Ok(Some(tail_at(alloc, here.as_str(), value)?))
        }
    }
}
