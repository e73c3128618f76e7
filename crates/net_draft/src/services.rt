//! Service curves of servers.

ghost use Rattle.std.specs.Prelude.{◌≡◌, codes, IfOk};
ghost use Rattle.toml.specs.View.{view, table_view};
ghost use Rattle.toml.specs.Data.{get_member};
ghost use Rattle.net_draft.specs.Faults.{Gives, under};
ghost use Rattle.net_draft.specs.CurveTexts.{text_of};
ghost use Rattle.net_draft.specs.Kept.{IsServiceDraft};
ghost use Rattle.net_draft.specs.Tables.{latency_at, gate_at, listed_service_at, service_at, service_or_rate};

use crate::curve_draft::CurveDraft;
use crate::curve_text::CurveText;
use crate::fault::DraftFault;
use crate::keys::{field, number_or, only, required_number, table_at};
use crate::making::curve_of;
use crate::pieces::{pieces_of, tail_of};
use crate::places::under;
use crate::words::{ServiceWord, service_kind};
use curve_library::UseAs;
use fraction128::Frac;
use std::alloc::Global;
use toml::{Table, Value};

#[tactic(auto, unfolding(crate::specs::Tables::latency_at))]
fn latency_of(
    alloc: Global,
    rate: Frac,
    table: &Table,
    place: &str,
) -> Result<CurveDraft, DraftFault>
    ensures value { Gives (λ c. text_of c.text) result (latency_at rate place.now (table_view table.now)) }
    ensures kept { IfOk result (IsServiceDraft rate) }
{
    only(alloc, table, place, &["kind", "latency"])?;
    let latency = number_or(alloc, table, place, "latency", Frac::zero())?;
    curve_of(alloc, place, CurveText::RateLatency { rate, latency })
}

#[tactic(auto, unfolding(crate::specs::Tables::gate_at))]
fn gate_of(alloc: Global, rate: Frac, table: &Table, place: &str) -> Result<CurveDraft, DraftFault>
    ensures value { Gives (λ c. text_of c.text) result (gate_at rate place.now (table_view table.now)) }
    ensures kept { IfOk result (IsServiceDraft rate) }
{
    only(alloc, table, place, &["kind", "cycle", "slot"])?;
    let cycle = required_number(alloc, table, place, "cycle")?;
    let slot = required_number(alloc, table, place, "slot")?;
    curve_of(alloc, place, CurveText::Gate { rate, cycle, slot })
}

#[tactic(auto, unfolding(crate::specs::Tables::listed_service_at))]
fn listed_of(
    alloc: Global,
    rate: Frac,
    table: &Table,
    place: &str,
) -> Result<CurveDraft, DraftFault>
    ensures value { Gives (λ c. text_of c.text) result (listed_service_at place.now (table_view table.now)) }
    ensures kept { IfOk result (IsServiceDraft rate) }
{
    only(alloc, table, place, &["kind", "piece", "tail"])?;
    let pieces = pieces_of(alloc, table, place)?;
    let tail = tail_of(alloc, table, place)?;
    let use_as = UseAs::Service;
    curve_of(
        alloc,
        place,
        CurveText::Listed {
            pieces,
            tail,
            use_as,
        },
    )
}

#[tactic(auto, unfolding(crate::specs::Tables::service_at))]
fn service_at(
    alloc: Global,
    rate: Frac,
    place: &str,
    value: &Value,
) -> Result<CurveDraft, DraftFault>
    ensures value { Gives (λ c. text_of c.text) result (service_at rate place.now (view value.now)) }
    ensures kept { IfOk result (IsServiceDraft rate) }
{
    let table = table_at(alloc, place, value)?;
    match service_kind(alloc, table, place)? {
        ServiceWord::Latency => latency_of(alloc, rate, table, place),
        ServiceWord::Gate => gate_of(alloc, rate, table, place),
        ServiceWord::List => listed_of(alloc, rate, table, place),
    }
}

/// The service curve of the server whose table stands at a place; without one it is the rate alone.
#[tactic(auto, unfolding(crate::specs::Tables::service_or_rate))]
pub(crate) fn service_of(
    alloc: Global,
    rate: Frac,
    table: &Table,
    place: &str,
) -> Result<CurveDraft, DraftFault>
    ensures value { Gives (λ c. text_of c.text) result
        (service_or_rate rate (under place.now (codes "service"))
        (get_member (codes "service") (table_view table.now))) }
    ensures kept { IfOk result (IsServiceDraft rate) }
{
    let here = under(alloc, place, "service")?;
    match field(table, "service") {
        None => {
            let latency = Frac::zero();
            curve_of(
                alloc,
                here.as_str(),
                CurveText::RateLatency { rate, latency },
            )
        }
        Some(value) => service_at(alloc, rate, here.as_str(), value),
    }
}
