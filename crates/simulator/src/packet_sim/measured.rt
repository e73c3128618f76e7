//! The run with its worst delays and its peaks, and the call that asks for its gauge first.

ghost use Rattle.std.specs.Prelude.{◌<◌, ◌≤◌, ◌↔◌, ◌^◌, IfOk, IsErrOf, length};
ghost use Rattle.net_model.specs.NetRoutes.{routes_of};
ghost use Rattle.net_model.specs.Walks.{IsFeedForward};
ghost use Rattle.net_model.specs.stated_runs.FromTraces.{setup_of, IsTraceOf};
ghost use Rattle.net_model.specs.stated_runs.Simulated.{IsSimulated};
ghost use Rattle.sim_bounds.specs.Gauge.{simulation_gauge};
ghost use Rattle.simulator.specs.run_measures.Peaks.{rows_of, ArePeaks};
ghost use Rattle.simulator.specs.run_measures.Worst.{AreWorst};

use crate::fault::SimFault;
use crate::packet_sim::run::run_of;
use crate::run_measures::{peaks, worst_delays};
use fraction128::Frac;
use net_model::{Network, Trace};
use run_laws::Run;
use sim_bounds::sim_gauge::is_too_wide;
use std::alloc::{AllocError, Global};

/// The stated run of a network and a trace, its worst delays and its peaks.
#[derive(Drop)]
pub struct SimRun {
    pub run: Run,
    /// For each flow the largest delay of its packets, from where they enter to the end of the last server's link; 0
    /// where it has no packet.
    pub worst: Vec<Frac>,
    /// For each queue of each server the most bits that are there at one time, a packet from its arrival to its
    /// leaving; 0 where it has no packet.
    pub peaks: Vec<Vec<u64>>,
}

/// The stated run with its worst delays and its peaks, of what `run_of` takes. It fails only for want of memory.
pub fn measured_run(alloc: Global, net: &Network, trace: &Trace) -> Result<SimRun, AllocError>
    requires named { IsTraceOf net.now trace.now }
    requires free { IsFeedForward net.now }
    requires narrow { simulation_gauge net.now trace.now < 2 ^ 120 }
    ensures stated { IfOk result (λ v. IsSimulated (setup_of net.now trace.now) v.run) }
    ensures worst { IfOk result
        (λ v. AreWorst (routes_of net.now) v.run.end v.run.steps (length net.now.flows) v.worst.items) }
    ensures peaks { IfOk result (λ v. ArePeaks (routes_of net.now) v.run (rows_of v.peaks.items)) }
{
    let run = run_of(alloc, net, trace)?;
    let worst = worst_delays(alloc, net, &run)?;
    let peaks = peaks(alloc, net, &run)?;
    Ok(SimRun { run, worst, peaks })
}

/// The stated run of a network and a trace with its worst delays and its peaks, for a trace whose numbers are those of
/// live flows and of servers, in a network in which no walk comes back. `TooWide` exactly where the simulation gauge of
/// both is 2^120 or more, whatever memory there is; `NoMemory` only below it, where an allocation is refused.
pub fn simulate(alloc: Global, net: &Network, trace: &Trace) -> Result<SimRun, SimFault>
    requires named { IsTraceOf net.now trace.now }
    requires free { IsFeedForward net.now }
    ensures stated { IfOk result (λ v. IsSimulated (setup_of net.now trace.now) v.run) }
    ensures worst { IfOk result
        (λ v. AreWorst (routes_of net.now) v.run.end v.run.steps (length net.now.flows) v.worst.items) }
    ensures peaks { IfOk result (λ v. ArePeaks (routes_of net.now) v.run (rows_of v.peaks.items)) }
    ensures refused { IsErrOf result SimFault.TooWide ↔ (2 ^ 120 ≤ simulation_gauge net.now trace.now) }
    ensures narrow { IfOk result (λ _. simulation_gauge net.now trace.now < 2 ^ 120) }
    ensures memory { IsErrOf result SimFault.NoMemory → simulation_gauge net.now trace.now < 2 ^ 120 }
{
    if is_too_wide(net, trace) {
        return Err(SimFault::TooWide);
    }
    Ok(measured_run(alloc, net, trace)?)
}
