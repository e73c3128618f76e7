//! The whole run.

ghost use Rattle.std.specs.Prelude.{◌≡◌, ◌+◌, ◌<◌, ◌^◌, ℕ, pos, IfOk, OnOk, length};
ghost use Rattle.rational.specs.Rational.{ℚ, int};
ghost use Rattle.run_laws.specs.Lawful.{IsLawful};
ghost use Rattle.net_model.specs.NetRoutes.{routes_of};
ghost use Rattle.net_model.specs.Walks.{IsFeedForward};
ghost use Rattle.net_model.specs.stated_runs.DueSteps.{step_time};
ghost use Rattle.net_model.specs.stated_runs.FromTraces.{setup_of, IsTraceOf};
ghost use Rattle.net_model.specs.stated_runs.Simulated.{IsSimulated, last_time};
ghost use Rattle.sim_bounds.specs.Gauge.{simulation_gauge};
ghost use Rattle.simulator.specs.run_measures.Worst.{DelaysFit};
ghost use Rattle.simulator.specs.packet_sim.Stepping.{Simulates, ComesNext, HasStepped, HasEnded};

use crate::packet_sim::simulation::Simulation;
use fraction128::Frac;
use net_model::{Network, Trace};
use run_laws::{Run, Step};
use sim_servers::sim_loop::first_due;
use sim_servers::{Due, DueKind};
use std::alloc::{AllocError, Global};

impl Simulation {
    /// The step that is due.
    fn take(&mut self, net: &Network, trace: &Trace, due: Due) -> Result<(), AllocError>
        requires { ComesNext net.now trace.now self.old due }
        ensures { OnOk result (HasStepped net.now trace.now self.old self.new) }
    {
        match due.kind {
            DueKind::Enter => self.enter(net, trace, due),
            DueKind::Reach => self.reach(net, trace, due),
            DueKind::Leave => self.leave(net, trace, due),
            DueKind::Resume => self.resume(net, trace, due),
            DueKind::Start => self.start(net, trace, due),
        }
    }

    /// All steps, up to where none is due.
    fn run_to_end(&mut self, net: &Network, trace: &Trace) -> Result<(), AllocError>
        requires { Simulates net.now trace.now self.old }
        ensures { OnOk result (HasEnded net.now trace.now self.new) }
    {
        while let Some(due) = first_due(
            trace.packets(),
            &self.stations,
            &self.links,
            &self.arrivals,
            self.entered,
        ) {
            self.take(net, trace, due)?;
        }
        Ok(())
    }
}

/// The time of a step; of work, its start.
fn time_of(step: &Step) -> Frac
    ensures { result ≡ step_time step.now }
{
    match step {
        Step::Enter { time, .. } => *time,
        Step::Reach { time, .. } => *time,
        Step::Work { start, .. } => *start,
        Step::Leave { time, .. } => *time,
        Step::Visit { time, .. } => *time,
    }
}

/// The time of the last step, 0 where there is none.
fn end_of(steps: &[Step]) -> Frac
    ensures { result ≡ last_time (int (pos 0)) steps.now }
{
    match steps.last() {
        Some(step) => time_of(step),
        None => Frac::zero(),
    }
}

/// The stated run of a network and a trace, for a trace whose numbers are those of live flows and of servers, in a
/// network in which no walk comes back, where the simulation gauge of both is below 2^120. It is lawful, and its delays
/// fit. It fails only for want of memory. A step costs a look at each server and at the first packet of each link,
/// and the turn of one server: never a pass over the packets.
pub fn run_of(alloc: Global, net: &Network, trace: &Trace) -> Result<Run, AllocError>
    requires named { IsTraceOf net.now trace.now }
    requires free { IsFeedForward net.now }
    requires narrow { simulation_gauge net.now trace.now < 2 ^ 120 }
    ensures stated { IfOk result (λ run. IsSimulated (setup_of net.now trace.now) run) }
    ensures lawful { IfOk result (λ run. IsLawful (routes_of net.now) run) }
    ensures fits { IfOk result (λ run. DelaysFit (routes_of net.now) run.end run.steps) }
{
    let mut simulation = Simulation::new(alloc, net, trace)?;
    simulation.run_to_end(net, trace)?;
    let Simulation {
        stations: _,
        links: _,
        arrivals: _,
        entered: _,
        steps,
    } = simulation;
    let end = end_of(&steps);
    Ok(Run { steps, end })
}
