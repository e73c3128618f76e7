//! The services of a queue, by the discipline of its port.

ghost use Rattle.std.specs.Prelude.{◌≡◌, ◌<◌, ◌≤◌, ◌^◌, ◌++◌, length, All, IfOk, MatchOption, sum};
ghost use Rattle.port_bounds.specs.Incoming.{incoming, joined_parts};
ghost use Rattle.port_bounds.specs.Ports.{port_service};
ghost use Rattle.port_bounds.specs.Ranges.{AreInRange};
ghost use Rattle.port_bounds.specs.Services.{AreAll, IsLeft, IsServiceOf, round_robin_share};
ghost use Rattle.tree_network.specs.Networks.{PortIsInRange, queues_of, longest_frame};

use crate::arrivals::{Arrivals, GRAINS, longest_of, longest_together, together};
use arrival_lines::{
    Gate, Service, gate_service, late_service, left_services, share_service, steps, times,
};
use std::alloc::{AllocError, Global};
use tree_network::{Discipline, Port};

/// As `own_service`, where its debt fits 64 bits.
fn service_behind(port: &Port) -> Option<Service>
    requires { PortIsInRange port.now }
    ensures { MatchOption result (2 ^ 64 ≤ (port_service port.now).debt) (λ service. service ≡ port_service port.now) }
{
    match port.gate {
        None => late_service(port.rate, port.latency),
        Some(gate) => {
            let gate = Gate {
                cycle: gate.cycle,
                slot: gate.slot,
            };
            gate_service(port.rate, port.latency, gate)
        }
    }
}

/// The service of a port as a whole: of its rate after its latency, or of its gate less what the latency may take.
pub fn own_service(port: &Port) -> Service
    requires { PortIsInRange port.now }
    ensures own { result ≡ port_service port.now }
    ensures rate { result.rate < 2 ^ 61 }
    ensures debt { result.debt < 2 ^ 61 }
{
    match service_behind(port) {
        None => unreachable!(),
        Some(service) => service,
    }
}

/// What the service leaves when all that arrives at the queues before and behind is served first, and one frame of so many grains: one
/// service for each step. No service where nothing bounds what arrives there.
fn left_by(
    alloc: Global,
    own: Service,
    before: &[Arrivals],
    behind: &[Arrivals],
    frame: u64,
) -> Result<Vec<Service>, AllocError>
    requires range { AreInRange (incoming before.now ++ incoming behind.now) }
    requires debt { own.debt < 2 ^ 61 }
    requires frame { frame < 2 ^ 61 }
    ensures all { IfOk result (λ v. AreAll (IsLeft own (joined_parts (incoming before.now ++ incoming behind.now)) frame) v.items) }
    ensures small { IfOk result (λ v. All (λ s. s.debt < 2 ^ 63) v.items) }
{
    match together(alloc, before, behind)? {
        None => Ok(Vec::new(alloc)),
        Some(parts) => {
            let lines = steps(alloc, &parts)?;
            let services = left_services(alloc, own, &lines, frame)?;
            Ok(services)
        }
    }
}

/// The sum of the quanta.
fn sum_of(quanta: &[u64]) -> u64
    requires few { length quanta.now ≤ 8 }
    requires range { All (λ q. q ≤ longest_frame) quanta.now }
    ensures { result ≡ sum quanta.now }
{
    let mut all = 0;
    for quantum in quanta {
        all += *quantum;
    }
    all
}

/// The share of the service that deficit round robin gives a queue of this quantum and longest frame, where so much are all quanta, and
/// all longest frames.
fn share_of(own: Service, quantum: u64, quanta: u64, longest: u64, frames: u64) -> Service
    requires rate { own.rate < 2 ^ 61 }
    requires debt { own.debt < 2 ^ 61 }
    requires some { 1 ≤ quantum }
    requires quantum { quantum ≤ quanta }
    requires quanta { quanta ≤ 2 ^ 27 }
    requires longest { longest ≤ frames }
    requires frames { frames ≤ 2 ^ 27 }
    ensures share { result ≡ round_robin_share own quantum quanta longest frames }
    ensures small { result.debt < 2 ^ 63 }
{
    let others = times(quantum, frames - longest);
    let visits = times(quanta - quantum, quantum + longest);
    let owed = (others + visits) * GRAINS as u128;
    match share_service(own, quantum, quanta, owed) {
        None => unreachable!(),
        Some(share) => share,
    }
}

/// The services that queue q gets.
pub fn services_of(
    alloc: Global,
    port: &Port,
    queues: &[Arrivals],
    q: usize,
) -> Result<Vec<Service>, AllocError>
    requires port { PortIsInRange port.now }
    requires count { length queues.now ≡ queues_of port.now.discipline }
    requires range { AreInRange (incoming queues.now) }
    requires inside { q < length queues.now }
    ensures all { IfOk result (λ v. AreAll (IsServiceOf port.now (incoming queues.now) q) v.items) }
    ensures small { IfOk result (λ v. All (λ s. s.debt < 2 ^ 63) v.items) }
{
    let own = own_service(port);
    let (before, behind) = (&queues[..q], &queues[q + 1..]);
    match &port.discipline {
        Discipline::Fifo => Ok(vec![in alloc; own]?),
        Discipline::Priority(_) => {
            let frame = longest_of(behind) * GRAINS;
            let services = left_by(alloc, own, before, &[], frame)?;
            Ok(services)
        }
        Discipline::Drr(quanta) => {
            let mut services = left_by(alloc, own, before, behind, 0)?;
            let all = sum_of(quanta);
            let frames = longest_together(queues);
            let share = share_of(own, quanta[q], all, queues[q].longest, frames);
            services.push(share)?;
            Ok(services)
        }
    }
}
