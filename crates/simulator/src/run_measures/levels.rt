//! The greatest backlog of each queue, found from the first step to the last.

ghost use Rattle.std.specs.Prelude.{◌≡◌, ◌+◌, ◌<◌, IfOk, OnOk, length};
ghost use Rattle.run_laws.specs.Lawful.{IsLawful};
ghost use Rattle.net_model.specs.NetRoutes.{routes_of};
ghost use Rattle.simulator.specs.run_measures.Levels.{IsKnown, SamePackets, MayEnter, MayReach, MayLeave, Enters, Reaches, Leaves, Tells};
ghost use Rattle.simulator.specs.run_measures.Peaks.{rows_of, ArePeaks};

use crate::run_measures::gauge::Gauge;
use crate::run_measures::gauges::{arrive, empty_rows, leave, peaks_of};
use crate::sim_routes::{entrance, queue_of};
use fraction128::Frac;
use net_model::Network;
use run_laws::{Run, Step};
use std::alloc::{AllocError, Global};

/// What some steps of a run tell of its packets and of its queues.
#[derive(Drop)]
pub(crate) struct Levels {
    /// The flow and the bits of each packet that has entered.
    flows: Vec<u32>,
    bits: Vec<u32>,
    /// For each server the gauges of its queues.
    rows: Vec<Vec<Gauge>>,
}

impl Levels {
    /// A packet enters.
    fn enter(&mut self, net: &Network, flow: u32, bits: u32, time: Frac) -> Result<(), AllocError>
        requires { MayEnter (routes_of net.now) self.old flow bits }
        ensures { OnOk result (Enters (routes_of net.now) self.old self.new flow bits time) }
    {
        let server = entrance(net, flow);
        let queue = queue_of(net, flow, server);
        self.flows.push(flow)?;
        self.bits.push(bits)?;
        arrive(&mut self.rows, server, queue, bits, time);
        Ok(())
    }

    /// A packet reaches a server.
    fn reach(&mut self, net: &Network, server: u32, packet: u32, time: Frac)
        requires known { IsKnown self.old packet }
        requires may { MayReach (routes_of net.now) self.old server packet }
        ensures same { SamePackets self.old self.new }
        ensures gains { Reaches (routes_of net.now) self.old self.new server packet time }
    {
        let number = packet as usize;
        let queue = queue_of(net, self.flows[number], server);
        arrive(&mut self.rows, server, queue, self.bits[number], time);
    }

    /// A packet leaves a server.
    fn lose(&mut self, net: &Network, server: u32, packet: u32, time: Frac)
        requires known { IsKnown self.old packet }
        requires may { MayLeave (routes_of net.now) self.old server packet }
        ensures same { SamePackets self.old self.new }
        ensures loses { Leaves (routes_of net.now) self.old self.new server packet time }
    {
        let number = packet as usize;
        let queue = queue_of(net, self.flows[number], server);
        leave(&mut self.rows, server, queue, self.bits[number], time);
    }

    /// One step more of a lawful run.
    fn tell(&mut self, net: &Network, run: &Run, place: usize) -> Result<(), AllocError>
        requires lawful { IsLawful (routes_of net.now) run.now }
        requires more { place < length run.now.steps }
        requires tells { Tells (routes_of net.now) run.now place self.old }
        ensures { OnOk result (Tells (routes_of net.now) run.now (place + 1) self.new) }
    {
        match run.steps[place] {
            Step::Enter {
                flow,
                packet,
                time,
                bits,
            } => {
                // A packet's number is its place in the order in which they enter.
                prove!(packet as usize == self.flows.len());
                self.enter(net, flow, bits, time)
            }
            Step::Reach {
                server,
                packet,
                time,
            } => {
                self.reach(net, server, packet, time);
                Ok(())
            }
            Step::Leave {
                server,
                packet,
                time,
            } => {
                self.lose(net, server, packet, time);
                Ok(())
            }
            Step::Work { .. } => Ok(()),
            Step::Visit { .. } => Ok(()),
        }
    }
}

/// Nothing has been told.
fn fresh_levels(alloc: Global, net: &Network, run: &Run) -> Result<Levels, AllocError>
    ensures { IfOk result (λ v. Tells (routes_of net.now) run.now 0 v) }
{
    let rows = empty_rows(alloc, net)?;
    Ok(Levels {
        flows: Vec::new(alloc),
        bits: Vec::new(alloc),
        rows,
    })
}

/// For each queue of each server the largest of 0 and of its backlog at all times up to the run's end; a packet counts
/// from where it arrives to where it leaves, and at that time still. It asks for a lawful run of the network, costs one
/// pass over its steps, and fails only for want of memory.
pub fn peaks(alloc: Global, net: &Network, run: &Run) -> Result<Vec<Vec<u64>>, AllocError>
    requires { IsLawful (routes_of net.now) run.now }
    ensures { IfOk result (λ v. ArePeaks (routes_of net.now) run.now (rows_of v.items)) }
{
    let mut levels = fresh_levels(alloc, net, run)?;
    for place in 0..run.steps.len() {
        levels.tell(net, run, place)?;
    }
    peaks_of(alloc, &levels.rows)
}
