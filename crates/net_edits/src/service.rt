//! Curves that an edit makes, and the servers that have them.

ghost use Rattle.std.specs.Prelude.{◌≡◌, Some};
ghost use Rattle.rational.specs.Rational.{◌≤ℚ◌, ◌<ℚ◌};
ghost use Rattle.min_plus.specs.Functions.{zero_q};
ghost use Rattle.upp_curve.specs.Curve.{SpecCurve};
ghost use Rattle.upp_curve.specs.Kinds as kinds;
ghost use Rattle.curve_library.specs.Causes.{KeepsOwnLimits};
ghost use Rattle.net_model.specs.Accepted.{IsServer};
ghost use Rattle.net_model.specs.Views.{server_of};
ghost use Rattle.net_edits.specs.Changed as spec;
ghost use Rattle.net_edits.specs.Edited.{made_by_kind, rate_made, latency_made, as_service, as_cell};
ghost use Rattle.net_edits.specs.Replies.{Makes, MakesNone, MadeCurveIsOver};

use crate::fault::EditFault;
use curve_library::{CurveFault, gate, rate_latency};
use fraction128::Frac;
use net_cells::{Cell, Kind};
use net_model::{Server, ServiceKind};
use std::alloc::Global;
use upp_curve::Curve;
use upp_limits::OverLimit;

/// The curve that was made, or the limit that it is over, at the cell that it counts as.
pub(crate) fn within_limits(made: Result<Curve, CurveFault>, cell: Cell) -> Result<Curve, EditFault>
    requires { (c : SpecCurve) × KeepsOwnLimits c made }
    ensures { (c : SpecCurve) → KeepsOwnLimits c made → Makes (as_cell cell c) (λ d. d ≡ c) result }
{
    match made {
        Ok(curve) => Ok(curve),
        Err(CurveFault::Op(OverLimit::TooMany)) => Err(EditFault::TooMany(cell)),
        Err(CurveFault::Op(OverLimit::TooWide)) => Err(EditFault::TooWide(cell)),
        Err(CurveFault::NoMemory) => Err(EditFault::NoMemory),
        Err(_) => unreachable!(),
    }
}

// As which cell a service that is made counts.
fn first_queue(number: u32) -> Cell
    ensures { (c : SpecCurve) → as_cell result c ≡ as_service number c }
{
    Cell {
        kind: Kind::QueueService,
        a: number,
        b: 0,
    }
}

// The service of a server at another rate.
fn service_at(alloc: Global, server: &Server, number: u32, rate: Frac) -> Result<Curve, EditFault>
    requires rate { zero_q <ℚ rate }
    requires kept { IsServer (server_of server.now) }
    ensures { let curve = spec.service_of_kind rate server.now.kind server.now.service in
        Makes (made_by_kind number server.now.kind curve) (λ c. c ≡ curve) result }
{
    match server.kind {
        ServiceKind::Latency(latency) => {
            within_limits(rate_latency(alloc, rate, latency), first_queue(number))
        }
        ServiceKind::Gate { cycle, slot } => {
            within_limits(gate(alloc, rate, cycle, slot), first_queue(number))
        }
        ServiceKind::Listed => Ok(server.service.copy()?),
    }
}

/// A server with another rate.
pub(crate) fn with_rate(
    alloc: Global,
    server: &Server,
    number: u32,
    rate: Frac,
) -> Result<Server, EditFault>
    requires rate { zero_q <ℚ rate }
    requires kept { IsServer (server_of server.now) }
    ensures { Makes (rate_made rate number (Some (server_of server.now)))
        (λ s. server_of s ≡ spec.with_rate rate (server_of server.now)) result }
{
    let service = service_at(alloc, server, number, rate)?;
    let mut changed = server.copy()?;
    changed.rate = rate;
    changed.service = service;
    Ok(changed)
}

/// A server with another latency.
pub(crate) fn with_latency(
    alloc: Global,
    server: &Server,
    number: u32,
    latency: Frac,
) -> Result<Server, EditFault>
    requires latency { zero_q ≤ℚ latency }
    requires kept { IsServer (server_of server.now) }
    ensures { Makes (latency_made latency number (Some (server_of server.now)))
        (λ s. server_of s ≡ spec.with_latency latency (server_of server.now)) result }
{
    let made = rate_latency(alloc, server.rate, latency);
    let service = within_limits(made, first_queue(number))?;
    let mut changed = server.copy()?;
    changed.kind = ServiceKind::Latency(latency);
    changed.service = service;
    Ok(changed)
}
