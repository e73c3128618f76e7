//! The numbers that a network and a trace name: times, and the servers' rates.

ghost use Rattle.upp_limits.specs.Gathered.{Gathers};
ghost use Rattle.upp_limits.specs.Limits.{Numbers, joined};
ghost use Rattle.net_model.specs.Views.{server_of, servers_of};
ghost use Rattle.net_model.specs.stated_runs.FromTraces.{gate_of};
ghost use Rattle.sim_bounds.specs.Gauge.{gate_times, stall_times};
ghost use Rattle.sim_bounds.specs.sim_gauge.Named.{times_alone, packet_numbers, stall_numbers, server_number, server_numbers};

use net_model::{Server, ServiceKind, Stall, TracePacket};
use upp_limits::gathered::Gathered;

/// The times at which packets enter more.
pub(crate) fn with_packets(g: Gathered, packets: &[TracePacket]) -> Gathered
    ensures { (n : Numbers) → Gathers g n → Gathers result (joined n (packet_numbers packets.now)) }
{
    let mut found = g;
    for packet in packets {
        found = found.with_time(packet.time);
    }
    found
}

/// The start and the end of a stall more.
fn with_stall(g: Gathered, stall: &Stall) -> Gathered
    ensures { (n : Numbers) → Gathers g n → Gathers result (joined n (times_alone (stall_times stall.now))) }
{
    g.with_time(stall.start).with_time(stall.end)
}

/// The starts and the ends of stalls more.
pub(crate) fn with_stalls(g: Gathered, stalls: &[Stall]) -> Gathered
    ensures { (n : Numbers) → Gathers g n → Gathers result (joined n (stall_numbers stalls.now)) }
{
    let mut found = g;
    for stall in stalls {
        found = with_stall(found, stall);
    }
    found
}

/// The cycle and the slot of a gate more.
fn with_gate(g: Gathered, kind: &ServiceKind) -> Gathered
    ensures { (n : Numbers) → Gathers g n → Gathers result (joined n (times_alone (gate_times (gate_of kind.now)))) }
{
    match kind {
        ServiceKind::Gate { cycle, slot } => g.with_time(*cycle).with_time(*slot),
        ServiceKind::Latency(_) => g,
        ServiceKind::Listed => g,
    }
}

/// The link, the gate and the rate of a server more.
fn with_server(g: Gathered, server: &Server) -> Gathered
    ensures { (n : Numbers) → Gathers g n → Gathers result (joined n (server_number (server_of server.now))) }
{
    with_gate(g.with_time(server.link), &server.kind).with_slope(server.rate)
}

/// The links, gates and rates of servers more.
pub(crate) fn with_servers(g: Gathered, servers: &[Server]) -> Gathered
    ensures { (n : Numbers) → Gathers g n → Gathers result (joined n (server_numbers (servers_of servers.now))) }
{
    let mut found = g;
    for server in servers {
        found = with_server(found, server);
    }
    found
}
