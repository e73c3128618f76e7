//! The worst delay of each flow, found from the last step back to the first: where a packet enters, it is known when it
//! is delivered.

ghost use Rattle.std.specs.Prelude.{◌≡◌, ℕ, [], IfOk, Some, length, pos, slice_get, slice_index_or};
ghost use Rattle.rational.specs.Rational.{int, neg_ℚ};
ghost use Rattle.rational.specs.Ratio.{SumFits};
ghost use Rattle.run_laws.specs.declared.steps.Step.TheVariants as steps;
ghost use Rattle.run_laws.specs.Routes.{Routes, link_at};
ghost use Rattle.net_model.specs.NetRoutes.{routes_of};
ghost use Rattle.simulator.specs.run_measures.Numbered.{AreNumberedFrom, flows_in};
ghost use Rattle.simulator.specs.run_measures.Tallies.{IsTold, MayTell, Tells};
ghost use Rattle.simulator.specs.run_measures.Worst.{AreWorst, DelaysFit};

use crate::run_measures::flows::flows_of;
use crate::sim_routes::{exit, link_of};
use fraction128::{Frac, difference, is_less, sum};
use net_model::Network;
use run_laws::{Run, Step};
use std::alloc::{AllocError, Global};

/// What the steps from a place on tell: for each packet when it is delivered, and for each flow the worst delay.
#[derive(Drop)]
pub(crate) struct Tally {
    flows: Vec<u32>,
    delivered: Vec<Frac>,
    worst: Vec<Frac>,
}

impl Tally {
    /// A packet leaves a server: where that is its last, it is delivered when it has passed the link.
    fn leave(&mut self, net: &Network, server: u32, packet: u32, time: Frac)
        requires long { length self.old.delivered.items ≡ length self.old.flows.items }
        requires fits { SumFits time (link_at (routes_of net.now) server) }
        ensures long { length self.new.delivered.items ≡ length self.new.flows.items }
        ensures flows { self.new.flows.items ≡ self.old.flows.items }
        ensures told { Tells (routes_of net.now) (steps.Leave server packet time) self.old self.new }
    {
        let number = packet as usize;
        if number >= self.flows.len() {
            return;
        }
        if server != exit(net, self.flows[number]) {
            return;
        }
        self.delivered[number] = sum(time, link_of(net, server));
    }

    /// A packet enters, of which it is known when it is delivered.
    fn enter(&mut self, flow: u32, packet: u32, time: Frac)
        requires long { length self.old.delivered.items ≡ length self.old.flows.items }
        requires known { slice_get self.old.flows.items packet ≡ Some flow }
        requires fits { SumFits (slice_index_or self.old.delivered.items packet (int (pos 0))) (neg_ℚ time) }
        ensures long { length self.new.delivered.items ≡ length self.new.flows.items }
        ensures flows { self.new.flows.items ≡ self.old.flows.items }
        ensures told { (net : Routes) (b : ℕ) → Tells net (steps.Enter flow packet time b) self.old self.new }
    {
        let delay = difference(self.delivered[packet as usize], time);
        let place = flow as usize;
        if place >= self.worst.len() {
            return;
        }
        if !is_less(self.worst[place], delay) {
            return;
        }
        self.worst[place] = delay;
    }

    /// One step more, before those that were told.
    fn tell(&mut self, net: &Network, step: &Step)
        requires long { length self.old.delivered.items ≡ length self.old.flows.items }
        requires may { MayTell (routes_of net.now) step.now self.old }
        ensures long { length self.new.delivered.items ≡ length self.new.flows.items }
        ensures flows { self.new.flows.items ≡ self.old.flows.items }
        ensures told { Tells (routes_of net.now) step.now self.old self.new }
    {
        match step {
            Step::Enter {
                flow,
                packet,
                time,
                ..
            } => self.enter(*flow, *packet, *time),
            Step::Leave {
                server,
                packet,
                time,
            } => self.leave(net, *server, *packet, *time),
            Step::Reach { .. } => {}
            Step::Work { .. } => {}
            Step::Visit { .. } => {}
        }
    }
}

/// Nothing has been told.
fn fresh_tally(alloc: Global, net: &Network, steps: &[Step], end: Frac) -> Result<Tally, AllocError>
    ensures told { IfOk result (λ v. IsTold (routes_of net.now) end [] (length net.now.flows) v) }
    ensures flows { IfOk result (λ v. v.flows.items ≡ flows_in steps.now) }
{
    let flows = flows_of(alloc, steps)?;
    let packets = flows.len();
    let delivered = vec![in alloc; end; packets]?;
    let many = net.flows().len();
    let worst = vec![in alloc; Frac::zero(); many]?;
    Ok(Tally {
        flows,
        delivered,
        worst,
    })
}

/// The worst delays among these steps.
fn worst_among(
    alloc: Global,
    net: &Network,
    steps: &[Step],
    end: Frac,
) -> Result<Vec<Frac>, AllocError>
    requires numbered { AreNumberedFrom 0 steps.now }
    requires fits { DelaysFit (routes_of net.now) end steps.now }
    ensures { IfOk result (λ v. AreWorst (routes_of net.now) end steps.now (length net.now.flows) v.items) }
{
    let mut tally = fresh_tally(alloc, net, steps, end)?;
    for place in (0..steps.len()).rev() {
        tally.tell(net, &steps[place]);
    }
    let Tally {
        flows: _,
        delivered: _,
        worst,
    } = tally;
    Ok(worst)
}

/// For each flow the largest delay of its packets, from where they enter to the end of the last server's link, or to
/// the run's end where one is not delivered; 0 where it has none. It asks for packets that are numbered in the order
/// in which they enter, as those of a lawful run are, and for delays that fit.
pub fn worst_delays(alloc: Global, net: &Network, run: &Run) -> Result<Vec<Frac>, AllocError>
    requires numbered { AreNumberedFrom 0 run.now.steps }
    requires fits { DelaysFit (routes_of net.now) run.now.end run.now.steps }
    ensures { IfOk result (λ v. AreWorst (routes_of net.now) run.now.end run.now.steps (length net.now.flows) v.items) }
{
    worst_among(alloc, net, &run.steps, run.end)
}
