//! Edits of one flow.

ghost use Rattle.std.specs.Prelude.{◌≡◌, pos, Some, IfOk};
ghost use Rattle.rational.specs.Rational.{int, ◌≤ℚ◌, ◌<ℚ◌};
ghost use Rattle.min_plus.specs.Functions.{zero_q};
ghost use Rattle.upp_curve.specs.Kinds as kinds;
ghost use Rattle.net_model.specs.Views.{flow_of};
ghost use Rattle.net_edits.specs.Changed as changed;
ghost use Rattle.net_edits.specs.Edited as spec;
ghost use Rattle.net_edits.specs.Replies.{Makes, IsChangeReply, IsOverNone};

use crate::change::Change;
use crate::fault::EditFault;
use crate::names::{flow_number, flow_of_number, server_numbers};
use crate::numbers::{is_negative, is_positive, length_of};
use crate::quanta::flow_fits;
use crate::service::within_limits;
use crate::ways::{entry_queues, may_be_path};
use curve_library::{CurveFault, bucket, stair};
use fraction128::Frac;
use net_cells::{Cell, Kind};
use net_model::{Flow, Network, PathEntry};
use std::alloc::{AllocError, Global};
use upp_curve::Curve;

/// A bucket of numbers that are not below 0.
pub(crate) fn bucket_of(alloc: Global, burst: Frac, rate: Frac) -> Result<Curve, AllocError>
    requires burst { zero_q ≤ℚ burst }
    requires rate { zero_q ≤ℚ rate }
    ensures { IfOk result (λ c. c ≡ kinds.bucket burst rate) }
{
    match bucket(alloc, burst, rate) {
        Ok(curve) => Ok(curve),
        Err(fault) => match fault {
            CurveFault::NoMemory => Err(AllocError),
            _ => unreachable!(),
        },
    }
}

fn with_arrival(flow: &Flow, arrival: Curve) -> Result<Flow, AllocError>
    ensures { IfOk result (λ f. Some (flow_of f) ≡ changed.with_arrival arrival (flow_of flow.now)) }
{
    let mut copy = flow.copy()?;
    copy.arrival = arrival;
    Ok(copy)
}

/// A bucket as the arrival curve.
pub(crate) fn bucket_edited(
    alloc: Global,
    net: &Network,
    name: &str,
    burst: Frac,
    rate: Frac,
) -> Result<Change, EditFault>
    ensures { IsChangeReply net.now (spec.bucket_edited net.now name.now burst rate) result }
{
    let number = flow_number(alloc, net, name)?;
    if is_negative(burst) {
        return Err(EditFault::BadValue);
    }
    if is_negative(rate) {
        return Err(EditFault::BadValue);
    }
    let arrival = bucket_of(alloc, burst, rate)?;
    let flow = with_arrival(flow_of_number(net, number), arrival)?;
    Ok(Change::Flow(number, Some(flow)))
}

fn stair_at(
    alloc: Global,
    packet: u32,
    period: Frac,
    jitter: Frac,
    number: u32,
) -> Result<Curve, EditFault>
    requires period { zero_q <ℚ period }
    requires jitter { zero_q ≤ℚ jitter }
    ensures { let curve = kinds.stair (int (pos packet)) period jitter in
        Makes (spec.as_arrival number curve) (λ c. c ≡ curve) result }
{
    let first_hop = Cell {
        kind: Kind::In,
        a: number,
        b: 0,
    };
    within_limits(stair(alloc, packet, period, jitter), first_hop)
}

/// A stair of the flow's packet as the arrival curve.
pub(crate) fn stair_edited(
    alloc: Global,
    net: &Network,
    name: &str,
    period: Frac,
    jitter: Frac,
) -> Result<Change, EditFault>
    ensures reply { IsChangeReply net.now (spec.stair_edited net.now name.now period jitter) result }
    ensures memory { result ≡ Err EditFault.NoMemory → IsOverNone (spec.stair_edited net.now name.now period jitter) }
{
    let number = flow_number(alloc, net, name)?;
    if !is_positive(period) {
        return Err(EditFault::BadValue);
    }
    if is_negative(jitter) {
        return Err(EditFault::BadValue);
    }
    let old = flow_of_number(net, number);
    let arrival = stair_at(alloc, old.packet, period, jitter, number)?;
    let flow = with_arrival(old, arrival)?;
    Ok(Change::Flow(number, Some(flow)))
}

fn with_packet(flow: &Flow, bits: u32) -> Result<Flow, AllocError>
    ensures { IfOk result (λ f. Some (flow_of f) ≡ changed.with_packet bits (flow_of flow.now)) }
{
    let mut copy = flow.copy()?;
    copy.packet = bits;
    Ok(copy)
}

/// Another longest packet.
pub(crate) fn packet_edited(
    alloc: Global,
    net: &Network,
    name: &str,
    bits: i64,
) -> Result<Change, EditFault>
    ensures { IsChangeReply net.now (spec.packet_edited net.now name.now bits) result }
{
    let number = flow_number(alloc, net, name)?;
    let bits = length_of(bits)?;
    let flow = with_packet(flow_of_number(net, number), bits)?;
    if !flow_fits(net, &flow) {
        return Err(EditFault::BadValue);
    }
    Ok(Change::Flow(number, Some(flow)))
}

fn with_path(flow: &Flow, path: Vec<u32>, lanes: Vec<u32>) -> Result<Flow, AllocError>
    ensures { IfOk result (λ f. Some (flow_of f) ≡ changed.with_path path.items lanes.items (flow_of flow.now)) }
{
    let mut copy = flow.copy()?;
    copy.path = path;
    copy.queues = lanes;
    Ok(copy)
}

/// Another path.
pub(crate) fn route_edited(
    alloc: Global,
    net: &Network,
    name: &str,
    entries: &[PathEntry],
) -> Result<Change, EditFault>
    ensures { IsChangeReply net.now (spec.route_edited net.now name.now entries.now) result }
{
    let number = flow_number(alloc, net, name)?;
    let path = server_numbers(alloc, net, entries)?;
    let lanes = entry_queues(alloc, entries)?;
    if !may_be_path(net, &path, &lanes) {
        return Err(EditFault::BadValue);
    }
    let flow = with_path(flow_of_number(net, number), path, lanes)?;
    if !flow_fits(net, &flow) {
        return Err(EditFault::BadValue);
    }
    Ok(Change::Flow(number, Some(flow)))
}

/// One flow less.
pub(crate) fn drop_edited(alloc: Global, net: &Network, name: &str) -> Result<Change, EditFault>
    ensures { IsChangeReply net.now (spec.drop_edited net.now name.now) result }
{
    net.keeps();
    let number = flow_number(alloc, net, name)?;
    Ok(Change::Flow(number, None))
}
