//! The least arrival curve of the packets of a flow.

ghost use Rattle.std.specs.Prelude.{◌≡◌, ◌↔◌, IfOk, Err};
ghost use Rattle.upp_curve.specs.Curve.{value_at};
ghost use Rattle.measure_curve.specs.Bursts.{IsBounded};
ghost use Rattle.measure_curve.specs.Grids.{IsNarrow};
ghost use Rattle.measure_curve.specs.Limits.{AreTooMany, AreTooWide};
ghost use Rattle.measure_curve.specs.Staircases.{TellRises};
ghost use Rattle.measure_curve.specs.Windows.{of_flow, IsLeastArrival};

use crate::fault::MeasureFault;
use crate::packets::{count_of, entries_of, grid_of_flow, own_packets};
use crate::staircase::staircase;
use net_model::{Trace, TracePacket};
use packet_windows::{put_in_order, steps_of, windows_of};
use std::alloc::{AllocError, Global};
use upp_curve::Curve;

const MOST_PACKETS: usize = 1024;

/// The least arrival curve of packets, by the windows from each of them to each later one.
fn curve_of(alloc: Global, packets: &[TracePacket], grid: u128) -> Result<Curve, AllocError>
    requires { IsNarrow grid packets.now }
    ensures least { IfOk result (λ c. IsLeastArrival packets.now (value_at c)) }
    ensures rises { IfOk result (λ c. TellRises (value_at c) c.pieces) }
{
    let entries = entries_of(alloc, packets, grid)?;
    let mut windows = windows_of(alloc, &entries)?;
    put_in_order(&mut windows)?;
    let steps = steps_of(alloc, &windows)?;
    staircase(alloc, &steps, grid)
}

/// The least arrival curve of the packets of a flow in a trace: at each length the most bits that enter in a closed
/// window of that length; 0 where the flow has no packet. Its pieces begin at 0 and wherever it rises. TooMany
/// exactly where the flow has more than 1,024 packets; TooWide exactly where it has not and their times and bits are
/// too wide, both before any memory is taken; else refused only for want of memory.
pub fn least_curve(alloc: Global, trace: &Trace, flow: u32) -> Result<Curve, MeasureFault>
    ensures least { IfOk result (λ c. IsLeastArrival (of_flow flow trace.now.packets) (value_at c)) }
    ensures rises { IfOk result (λ c. TellRises (value_at c) c.pieces) }
    ensures bounded { IfOk result (λ c. IsBounded (value_at c)) }
    ensures many { (result ≡ Err MeasureFault.TooMany) ↔ AreTooMany (of_flow flow trace.now.packets) }
    ensures wide { (result ≡ Err MeasureFault.TooWide) ↔ AreTooWide (of_flow flow trace.now.packets) }
{
    let packets = trace.packets();
    if count_of(packets, flow) > MOST_PACKETS {
        return Err(MeasureFault::TooMany);
    }
    let Some(grid) = grid_of_flow(packets, flow) else {
        return Err(MeasureFault::TooWide);
    };
    let own = own_packets(alloc, packets, flow)?;
    let curve = curve_of(alloc, &own, grid)?;
    Ok(curve)
}
