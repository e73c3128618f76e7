//! The packets of a flow: how many there are, how wide they are, and where they are on their grid.

ghost use Rattle.std.specs.Prelude.{◌≡◌, ◌↔◌, ℕ, ◌<◌, ◌≤◌, ◌^◌, List, IfOk, IsTrue, MatchOption, length, map, sum_by};
ghost use Rattle.net_model.specs.declared.trace.TracePacket.{TracePacket};
ghost use Rattle.upp_limits.specs.Gathered.{Gathers};
ghost use Rattle.measure_curve.specs.Limits.{grid_of};
ghost use Rattle.measure_curve.specs.Grids.{width_of, numbers_of, IsNarrow};
ghost use Rattle.measure_curve.specs.Scans as scans;
ghost use Rattle.measure_curve.specs.Windows.{of_flow};

use crate::ticks::ticks;
use net_model::TracePacket;
use packet_windows::Entry;
use std::alloc::{AllocError, Global};
use upp_limits::gathered::Gathered;

/// How many packets the flow has.
pub(crate) fn count_of(packets: &[TracePacket], flow: u32) -> usize
    ensures { result ≡ length (of_flow flow packets.now) }
{
    packets.iter().filter(|packet| packet.flow == flow).count()
}

/// The packets of the flow.
pub(crate) fn own_packets(
    alloc: Global,
    packets: &[TracePacket],
    flow: u32,
) -> Result<Vec<TracePacket>, AllocError>
    ensures { IfOk result (λ v. v.items ≡ of_flow flow packets.now) }
{
    packets
        .iter()
        .filter(|packet| packet.flow == flow)
        .copied()
        .collect(alloc)
}

/// The sizes of the times at which the flow's packets enter.
fn sizes_of(packets: &[TracePacket], flow: u32) -> Gathered
    ensures { Gathers result (numbers_of (of_flow flow packets.now)) }
{
    let mut found = Gathered::nothing();
    for packet in packets {
        if packet.flow == flow {
            found = found.with_value(packet.time);
        }
    }
    found
}

/// The bits of the flow's packets.
fn bits_of(packets: &[TracePacket], flow: u32) -> u64
    requires { length packets.now ≤ 10000 }
    ensures { result ≡ sum_by (λ p. p.bits) (of_flow flow packets.now) }
{
    let mut bits: u64 = 0;
    for packet in packets {
        if packet.flow == flow {
            bits += packet.bits as u64;
        }
    }
    bits
}

/// Whether packets of these sizes, with so many bits, are too wide.
fn is_wide(sizes: &Gathered, bits: u64) -> bool
    ensures { (ps : List TracePacket) → Gathers sizes.now (numbers_of ps) → bits ≡ sum_by (λ p. p.bits) ps
        → IsTrue result ↔ (2 ^ 120 ≤ width_of ps) }
{
    let reach = sizes.largest.max(bits as u128);
    if reach >= 1 << 114 {
        return true;
    }
    (64 * (reach + 1)).saturating_mul(sizes.dv) >= 1 << 120
}

/// The least common denominator of the times at which the flow's packets enter; None exactly where they are too wide.
pub(crate) fn grid_of_flow(packets: &[TracePacket], flow: u32) -> Option<u128>
    requires { length packets.now ≤ 10000 }
    ensures { let ps = of_flow flow packets.now in
        MatchOption result (2 ^ 120 ≤ width_of ps) (λ grid. (grid ≡ grid_of ps) × (width_of ps < 2 ^ 120)) }
{
    let sizes = sizes_of(packets, flow);
    if is_wide(&sizes, bits_of(packets, flow)) {
        return None;
    }
    Some(sizes.dv)
}

/// The packets on their grid.
pub(crate) fn entries_of(
    alloc: Global,
    packets: &[TracePacket],
    grid: u128,
) -> Result<Vec<Entry>, AllocError>
    requires { IsNarrow grid packets.now }
    ensures { IfOk result (λ v. v.items ≡ map (scans.entry_of grid) packets.now) }
{
    let mut entries = Vec::with_capacity(alloc, packets.len())?;
    for packet in packets {
        entries.push(Entry {
            time: ticks(packet.time, grid),
            bits: packet.bits,
        })?;
    }
    Ok(entries)
}
