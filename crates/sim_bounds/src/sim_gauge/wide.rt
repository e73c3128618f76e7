//! Whether the simulation gauge is too large.

ghost use Rattle.std.specs.Prelude.{ℕ, ◌≡◌, ◌↔◌, ◌<◌, ◌≤◌, ◌^◌, IfSome, IsSome, IsTrue, length, map, nat_abs, pos, sum_by};
ghost use Rattle.std.specs.List.{AllByRecursion};
ghost use Rattle.rational.specs.Rational.{int, ◌<ℚ◌};
ghost use Rattle.rational.specs.Gauge.{Kept};
ghost use Rattle.upp_limits.specs.Limits.{joined, time_alone};
ghost use Rattle.upp_limits.specs.Gathered.{Gathers};
ghost use Rattle.net_model.specs.declared.trace.TracePacket.{TracePacket};
ghost use Rattle.net_model.specs.Networks.{NetServer};
ghost use Rattle.net_model.specs.Views.{servers_of};
ghost use Rattle.net_model.specs.Walks.{IsFeedForward};
ghost use Rattle.net_model.specs.stated_runs.FromTraces.{setup_of, IsTraceOf};
ghost use Rattle.sim_bounds.specs.Horizons.{horizon};
ghost use Rattle.sim_bounds.specs.Gauge.{common_num, simulation_numbers, simulation_gauge};

use crate::sim_gauge::horizons::horizon;
use crate::sim_gauge::named::{with_packets, with_servers, with_stalls};
use crate::window_numbers::{is_over, with_arrivals, with_services};
use fraction128::Frac;
use net_model::{Network, Server, Trace, TracePacket};
use upp_limits::gathered::{Gathered, common_multiple};

/// All numbers of a simulation. None only where the simulation gauge is 2^120 or more.
fn numbers_to(net: &Network, trace: &Trace, end: Frac) -> Option<Gathered>
    requires { end ≡ horizon (setup_of net.now trace.now) }
    ensures found { IfSome result (λ g. Gathers g (joined (time_alone end) (simulation_numbers net.now trace.now))) }
    ensures fits { simulation_gauge net.now trace.now < 2 ^ 120 → IsSome result }
{
    let packets = trace.packets();
    let servers = net.servers();
    let entered = with_packets(Gathered::nothing().with_time(end), packets);
    let stalled = with_stalls(entered, trace.stalls());
    let named = with_servers(stalled, servers);
    let served = with_services(named, servers, end)?;
    with_arrivals(served, net.flows(), end)
}

/// The size of the numerator.
fn numerator_of(x: Frac) -> u128
    ensures { result ≡ nat_abs x.num }
{
    x.numerator().unsigned_abs()
}

/// The least common multiple of the numerators of the rates, up to the largest number.
fn numerators(servers: &[Server]) -> u128
    requires { AllByRecursion (λ (s : NetServer). int (pos 0) <ℚ s.rate) (servers_of servers.now) }
    ensures { Kept result (common_num (map (λ (s : NetServer). s.rate) (servers_of servers.now))) }
{
    let mut common = 1;
    for i in (0..servers.len()).rev() {
        common = common_multiple(numerator_of(servers[i].rate), common);
    }
    common
}

/// The bits of all packets.
fn bits_of(packets: &[TracePacket]) -> u64
    requires { length packets.now < 2 ^ 31 }
    ensures { result ≡ sum_by (λ (p : TracePacket). p.bits) packets.now }
{
    let mut bits = 0;
    for packet in packets {
        bits += packet.bits as u64;
    }
    bits
}

/// Whether the simulation gauge of a network and a trace is 2^120 or more, for a trace whose numbers are those of live
/// flows and of servers of the network, in which no walk comes back. It never fails, whatever the numbers, and takes no
/// memory. It looks at the packets and the stalls once for each server, and at the packets once more for each gate.
pub fn is_too_wide(net: &Network, trace: &Trace) -> bool
    requires named { IsTraceOf net.now trace.now }
    requires free { IsFeedForward net.now }
    ensures { IsTrue result ↔ (2 ^ 120 ≤ simulation_gauge net.now trace.now) }
{
    let bits = Frac::from_whole(bits_of(trace.packets()) as i128);
    let rates = numerators(net.servers());
    match horizon(net, trace) {
        None => true,
        Some(end) => match numbers_to(net, trace, end) {
            None => true,
            Some(numbers) => is_over(numbers.with_value(bits), rates, end),
        },
    }
}
