//! Arrival curves of flows.

ghost use Rattle.std.specs.Prelude.{◌≡◌, codes, IfOk};
ghost use Rattle.toml.specs.View.{view, table_view};
ghost use Rattle.net_draft.specs.Faults.{Gives};
ghost use Rattle.net_draft.specs.CurveTexts.{text_of};
ghost use Rattle.net_draft.specs.Kept.{IsArrivalDraft};
ghost use Rattle.net_draft.specs.Tables.{bucket_at, stair_at, listed_arrival_at, arrival_at, arrival_of};

use crate::curve_draft::CurveDraft;
use crate::curve_text::CurveText;
use crate::fault::DraftFault;
use crate::keys::{field, is_true, number_or, only, required_number, table_at};
use crate::making::curve_of;
use crate::pieces::{pieces_of, tail_of};
use crate::places::{fault_under, under};
use crate::words::{ArrivalWord, arrival_kind};
use curve_library::UseAs;
use fraction128::Frac;
use net_model::NetKind;
use std::alloc::Global;
use toml::{Table, Value};

#[tactic(auto, unfolding(crate::specs::Tables::bucket_at))]
fn bucket_of(
    alloc: Global,
    packet: u32,
    table: &Table,
    place: &str,
) -> Result<(CurveDraft, bool), DraftFault>
    ensures value { Gives (λ a. (text_of a.0.text, a.1)) result (bucket_at place.now (table_view table.now)) }
    ensures kept { IfOk result (λ a. IsArrivalDraft packet a.0) }
{
    only(alloc, table, place, &["kind", "burst", "rate"])?;
    let burst = required_number(alloc, table, place, "burst")?;
    let rate = required_number(alloc, table, place, "rate")?;
    let curve = curve_of(alloc, place, CurveText::Bucket { burst, rate })?;
    Ok((curve, false))
}

#[tactic(auto, unfolding(crate::specs::Tables::stair_at))]
fn stair_of(
    alloc: Global,
    packet: u32,
    table: &Table,
    place: &str,
) -> Result<(CurveDraft, bool), DraftFault>
    ensures value { Gives (λ a. (text_of a.0.text, a.1)) result (stair_at packet place.now (table_view table.now)) }
    ensures kept { IfOk result (λ a. IsArrivalDraft packet a.0) }
{
    only(alloc, table, place, &["kind", "period", "jitter"])?;
    let period = required_number(alloc, table, place, "period")?;
    let jitter = number_or(alloc, table, place, "jitter", Frac::zero())?;
    let text = CurveText::Stair {
        packet,
        period,
        jitter,
    };
    let curve = curve_of(alloc, place, text)?;
    Ok((curve, false))
}

#[tactic(auto, unfolding(crate::specs::Tables::listed_arrival_at))]
fn listed_of(
    alloc: Global,
    packet: u32,
    table: &Table,
    place: &str,
) -> Result<(CurveDraft, bool), DraftFault>
    ensures value { Gives (λ a. (text_of a.0.text, a.1)) result (listed_arrival_at place.now (table_view table.now)) }
    ensures kept { IfOk result (λ a. IsArrivalDraft packet a.0) }
{
    only(alloc, table, place, &["kind", "piece", "tail", "close"])?;
    let pieces = pieces_of(alloc, table, place)?;
    let tail = tail_of(alloc, table, place)?;
    let closes = is_true(alloc, table, place, "close")?;
    let text = CurveText::Listed {
        pieces,
        tail,
        use_as: UseAs::Arrival,
    };
    let curve = curve_of(alloc, place, text)?;
    Ok((curve, closes))
}

#[tactic(auto, unfolding(crate::specs::Tables::arrival_at))]
fn arrival_at(
    alloc: Global,
    packet: u32,
    place: &str,
    value: &Value,
) -> Result<(CurveDraft, bool), DraftFault>
    ensures value { Gives (λ a. (text_of a.0.text, a.1)) result (arrival_at packet place.now (view value.now)) }
    ensures kept { IfOk result (λ a. IsArrivalDraft packet a.0) }
{
    let table = table_at(alloc, place, value)?;
    match arrival_kind(alloc, table, place)? {
        ArrivalWord::Bucket => bucket_of(alloc, packet, table, place),
        ArrivalWord::Stair => stair_of(alloc, packet, table, place),
        ArrivalWord::List => listed_of(alloc, packet, table, place),
    }
}

/// The arrival curve of the flow whose table stands at a place, and whether it is to be closed.
#[tactic(auto, unfolding(crate::specs::Tables::arrival_of))]
pub(crate) fn arrival_of(
    alloc: Global,
    packet: u32,
    table: &Table,
    place: &str,
) -> Result<(CurveDraft, bool), DraftFault>
    ensures value { Gives (λ a. (text_of a.0.text, a.1)) result (arrival_of packet place.now (table_view table.now)) }
    ensures kept { IfOk result (λ a. IsArrivalDraft packet a.0) }
{
    match field(table, "arrival") {
        None => Err(fault_under(alloc, NetKind::M2, place, "arrival")),
        Some(value) => {
            let here = under(alloc, place, "arrival")?;
            arrival_at(alloc, packet, here.as_str(), value)
        }
    }
}
