//! The flows.

ghost use Rattle.std.specs.Prelude.{◌≡◌, ◌≤◌, ◌+◌, ◌^◌, map, Some, IfOk};
ghost use Rattle.std.specs.List.{range_with_len};
ghost use Rattle.std.specs.String.{string_bytes};
ghost use Rattle.min_plus.specs.Functions.{zero_q};
ghost use Rattle.upp_curve.specs.Kinds.{stair};
ghost use Rattle.net_model.specs.Views as model;
ghost use Rattle.exercise_load.specs.Bounds.{IsDrawn, AreDrawn};
ghost use Rattle.exercise_load.specs.Workloads as loads;

use crate::drawn::DrawnFlow;
use curve_library::{CurveFault, stair};
use fraction128::Frac;
use net_model::Flow;
use std::alloc::{AllocError, Global};
use upp_curve::Curve;

fn name_of(alloc: Global, number: u32) -> Result<String, AllocError>
    ensures { IfOk result (λ s. string_bytes s ≡ loads.numbered 102 number) }
{
    format!(in alloc; "f{number}")
}

fn path_of(alloc: Global, flow: &DrawnFlow) -> Result<Vec<u32>, AllocError>
    requires { IsDrawn flow.now }
    ensures { IfOk result (λ v. v.items ≡ loads.path_of flow.now) }
{
    let mut path = Vec::with_capacity(alloc, flow.hops as usize)?;
    for hop in 0..flow.hops {
        path.push(flow.first + hop)?;
    }
    Ok(path)
}

// The queue at a server.
fn queue_at(queue: u32, server: u32) -> u32
    ensures { result ≡ loads.queue_at queue server }
{
    if server % 3 == 0 { 0 } else { queue }
}

fn queues_along(alloc: Global, queue: u32, path: &[u32]) -> Result<Vec<u32>, AllocError>
    ensures { IfOk result (λ v. v.items ≡ map (loads.queue_at queue) path.now) }
{
    path.iter()
        .map(|server| queue_at(queue, *server))
        .collect(alloc)
}

// The arrival curve, which is within all limits.
fn arrival(alloc: Global, flow: &DrawnFlow) -> Result<Curve, AllocError>
    requires { IsDrawn flow.now }
    ensures { IfOk result
        (λ c. c ≡ stair (loads.whole flow.now.packet) (loads.whole flow.now.period) zero_q) }
{
    match stair(alloc, flow.packet, Frac::from(flow.period), Frac::zero()) {
        Ok(made) => Ok(made),
        Err(fault) => match fault {
            CurveFault::NoMemory => Err(AllocError),
            _ => unreachable!(),
        },
    }
}

fn flow_of(alloc: Global, flow: &DrawnFlow) -> Result<Flow, AllocError>
    requires { IsDrawn flow.now }
    ensures { IfOk result (λ f. model.flow_of f ≡ loads.flow_of flow.now) }
{
    let path = path_of(alloc, flow)?;
    let queues = queues_along(alloc, flow.queue, &path)?;
    Ok(Flow {
        name: name_of(alloc, flow.number)?,
        path,
        queues,
        packet: flow.packet,
        arrival: arrival(alloc, flow)?,
    })
}

/// All flows of a workload, by their numbers.
pub(crate) fn flows(alloc: Global, drawn: &[DrawnFlow]) -> Result<Vec<Option<Flow>>, AllocError>
    requires { AreDrawn drawn.now }
    ensures { IfOk result (λ v. model.flows_of v.items ≡ map (λ f. Some (loads.flow_of f)) drawn.now) }
{
    let mut made = Vec::with_capacity(alloc, drawn.len())?;
    for flow in drawn {
        made.push(Some(flow_of(alloc, flow)?))?;
    }
    Ok(made)
}
