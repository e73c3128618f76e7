//! The packets of the trace.

ghost use Rattle.std.specs.Prelude.{◌≡◌, ◌++◌, ◌*◌, ◌<◌, map, OnOk, IfOk};
ghost use Rattle.std.specs.List.{filter, flat_map, range_with_len};
ghost use Rattle.exercise_load.specs.Bounds.{IsDrawn, AreDrawn};
ghost use Rattle.exercise_load.specs.Workloads as loads;

use crate::drawn::DrawnFlow;
use fraction128::Frac;
use net_model::TracePacket;
use std::alloc::{AllocError, Global};

/// Between two times at which flows send.
const STEP: u64 = 8_000;

/// How many such times there are.
const TIMES: u64 = 128;

fn is_sending(time: u64, flow: &DrawnFlow) -> bool
    requires { 0 < flow.now.period }
    ensures { result ≡ loads.is_sending time flow.now }
{
    time % flow.period == 0
}

fn packet_at(time: u64, flow: &DrawnFlow) -> TracePacket
    ensures { result ≡ loads.packet_at time flow.now }
{
    TracePacket {
        time: Frac::from(time),
        flow: flow.number,
        bits: flow.packet,
    }
}

// Adds the packets of one time, by the numbers of their flows.
fn push_packets(
    into: &mut Vec<TracePacket>,
    time: u64,
    flows: &[DrawnFlow],
) -> Result<(), AllocError>
    requires { AreDrawn flows.now }
    ensures { OnOk result (into.new.items ≡
        into.old.items ++ map (loads.packet_at time) (filter (loads.is_sending time) flows.now)) }
{
    for flow in flows {
        if is_sending(time, flow) {
            into.push(packet_at(time, flow))?;
        }
    }
    Ok(())
}

/// All packets that the flows send before 1,024,000, time by time and by the numbers of their flows.
pub(crate) fn packets(alloc: Global, flows: &[DrawnFlow]) -> Result<Vec<TracePacket>, AllocError>
    requires { AreDrawn flows.now }
    ensures { IfOk result (λ v. v.items ≡
        flat_map (λ k. map (loads.packet_at (8000 * k)) (filter (loads.is_sending (8000 * k)) flows.now))
        (range_with_len 0 128)) }
{
    let mut packets = Vec::new(alloc);
    for count in 0..TIMES {
        push_packets(&mut packets, STEP * count, flows)?;
    }
    Ok(packets)
}
