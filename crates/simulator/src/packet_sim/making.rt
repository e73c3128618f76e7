//! A simulation in which nothing has happened yet.

ghost use Rattle.std.specs.Prelude.{◌≡◌, ◌+◌, ◌<◌, ◌≤◌, ◌^◌, IfOk, AllPairs, length, map};
ghost use Rattle.std.specs.List.Sorted.{IsPermutation};
ghost use Rattle.rational.specs.Rational.{◌≤ℚ◌};
ghost use Rattle.net_model.specs.Accepted.{HasFewQueues};
ghost use Rattle.net_model.specs.Views.{discipline_of, server_of};
ghost use Rattle.net_model.specs.stated_runs.FromTraces.{gate_of as gate_times_of, stalls_at, IsTraceOf};
ghost use Rattle.sim_servers.specs.declared.opening.Span.{Span as SpecSpan};
ghost use Rattle.sim_servers.specs.Openings.{gate_for, stall_times};
ghost use Rattle.net_model.specs.Walks.{IsFeedForward};
ghost use Rattle.sim_bounds.specs.Gauge.{simulation_gauge};
ghost use Rattle.simulator.specs.packet_sim.Fresh.{AreSorted, IsFresh, AreFresh};
ghost use Rattle.simulator.specs.packet_sim.Stepping.{Simulates};

use crate::packet_sim::simulation::Simulation;
use fraction128::Frac;
use net_model::{Network, Server, ServiceKind, Stall, Trace};
use queue_sched::index_links::Links;
use sim_servers::sim_states::Arrival;
use sim_servers::{Gate, Next, Opening, ServerQueues, Span, Station};
use std::alloc::{AllocError, Global};

/// The gate of a server, if it has one.
fn gate_in(kind: &ServiceKind) -> Option<Gate>
    ensures { gate_for result ≡ gate_times_of kind.now }
{
    match kind {
        ServiceKind::Gate { cycle, slot } => Some(Gate {
            cycle: *cycle,
            slot: *slot,
        }),
        _ => None,
    }
}

/// The stalls of a server, in the order of the trace.
fn stalls_of(alloc: Global, server: u32, stalls: &[Stall]) -> Result<Vec<Span>, AllocError>
    ensures { IfOk result (λ v. map stall_times v.items ≡ stalls_at server stalls.now) }
{
    let mut spans = Vec::new(alloc);
    for stall in stalls {
        if stall.server == server {
            spans.push(Span {
                start: stall.start,
                end: stall.end,
            })?;
        }
    }
    Ok(spans)
}

/// Puts them in the order of their starts.
fn put_in_order(spans: &mut Vec<Span>)
    ensures permutation { IsPermutation spans.old.items spans.new.items }
    ensures sorted { AllPairs (λ (a b : SpecSpan). a.start ≤ℚ b.start) spans.new.items }
{
    spans.sort_unstable_by_key(|span| span.start);
}

/// The stalls of a server, in the order of their starts.
fn sorted_stalls(alloc: Global, server: u32, stalls: &[Stall]) -> Result<Vec<Span>, AllocError>
    ensures { IfOk result (λ v. AreSorted (stalls_at server stalls.now) v.items) }
{
    let mut spans = stalls_of(alloc, server, stalls)?;
    put_in_order(&mut spans);
    Ok(spans)
}

/// A server without packets.
fn fresh_station(
    alloc: Global,
    packets: u32,
    server: &Server,
    stalls: Vec<Span>,
) -> Result<Station, AllocError>
    requires { HasFewQueues (discipline_of server.now.discipline) }
    ensures { IfOk result (λ x. IsFresh (server_of server.now) packets stalls.items x) }
{
    let queues = ServerQueues::new(alloc, packets, &server.discipline)?;
    Ok(Station {
        queues,
        opening: Opening {
            gate: gate_in(&server.kind),
            stalls,
            passed: 0,
        },
        rate: server.rate,
        inside: 0,
        next: Next::Nothing,
    })
}

/// All servers without packets.
fn fresh_stations(alloc: Global, net: &Network, trace: &Trace) -> Result<Vec<Station>, AllocError>
    ensures { IfOk result (λ v. AreFresh net.now.servers trace.now (length net.now.servers) v.items) }
{
    let packets = trace.packets().len() as u32;
    let mut stations = Vec::new(alloc);
    for (number, server) in net.servers().iter().enumerate() {
        let stalls = sorted_stalls(alloc, number as u32, trace.stalls())?;
        let station = fresh_station(alloc, packets, server, stalls)?;
        stations.push(station)?;
    }
    Ok(stations)
}

impl Simulation {
    /// Nothing has happened yet.
    pub(crate) fn new(alloc: Global, net: &Network, trace: &Trace) -> Result<Simulation, AllocError>
        requires named { IsTraceOf net.now trace.now }
        requires free { IsFeedForward net.now }
        requires narrow { simulation_gauge net.now trace.now < 2 ^ 120 }
        ensures { IfOk result (λ v. Simulates net.now trace.now v) }
    {
        let stations = fresh_stations(alloc, net, trace)?;
        let packets = trace.packets().len();
        let links = Links::new(alloc, packets as u32, net.servers().len() as u32)?;
        let nowhere = Arrival {
            server: 0,
            time: Frac::zero(),
        };
        let arrivals = vec![in alloc; nowhere; packets]?;
        Ok(Simulation {
            stations,
            links,
            arrivals,
            entered: 0,
            steps: Vec::new(alloc),
        })
    }
}
