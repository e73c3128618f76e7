//! Steps in which a server works, or turns to a queue.

ghost use Rattle.std.specs.Prelude.{◌≡◌, OnOk, Some};
ghost use Rattle.queue_sched.specs.declared.turn.Turn.TheVariants as turns;
ghost use Rattle.simulator.specs.packet_sim.Stepping.{ComesNext, TakesTurn, HasStepped};

use crate::packet_sim::reads::{packet_at, rate_at, rest_at};
use crate::packet_sim::simulation::Simulation;
use fraction128::{Frac, quotient};
use net_model::{Network, Trace};
use queue_sched::Turn;
use run_laws::Step;
use sim_servers::sim_loop::{turn_at, work_at};
use sim_servers::{Due, DueKind};
use std::alloc::AllocError;

impl Simulation {
    /// A server works on with the packet that is under way.
    pub(crate) fn resume(
        &mut self,
        net: &Network,
        trace: &Trace,
        due: Due,
    ) -> Result<(), AllocError>
        requires next { ComesNext net.now trace.now self.old due }
        requires kind { due.kind ≡ DueKind.Resume }
        ensures { OnOk result (HasStepped net.now trace.now self.old self.new) }
    {
        match rest_at(&self.stations, due.server) {
            Some(rest) => {
                let stretch = work_at(
                    &mut self.stations,
                    due.server,
                    rest.packet,
                    due.time,
                    rest.left,
                );
                self.steps.push(Step::Work {
                    server: due.server,
                    packet: rest.packet,
                    start: due.time,
                    end: stretch.end,
                    bits: stretch.bits,
                })?;
                Ok(())
            }
            None => unreachable!(),
        }
    }

    /// A server turns to a queue, or puts a packet under way.
    pub(crate) fn start(&mut self, net: &Network, trace: &Trace, due: Due) -> Result<(), AllocError>
        requires next { ComesNext net.now trace.now self.old due }
        requires kind { due.kind ≡ DueKind.Start }
        ensures { OnOk result (HasStepped net.now trace.now self.old self.new) }
    {
        match turn_at(&mut self.stations, due.server) {
            Some(Turn::Visit(queue)) => self.visit(net, trace, due, queue),
            Some(Turn::Send(packet)) => self.send(net, trace, due, packet),
            None => unreachable!(),
        }
    }

    /// The visit of a queue.
    fn visit(
        &mut self,
        net: &Network,
        trace: &Trace,
        due: Due,
        queue: u32,
    ) -> Result<(), AllocError>
        requires turn { TakesTurn net.now trace.now self.old due (Some (turns.Visit queue)) }
        requires kind { due.kind ≡ DueKind.Start }
        ensures { OnOk result (HasStepped net.now trace.now self.old self.new) }
    {
        self.steps.push(Step::Visit {
            server: due.server,
            queue,
            time: due.time,
        })?;
        Ok(())
    }

    /// The first work on a packet.
    fn send(
        &mut self,
        net: &Network,
        trace: &Trace,
        due: Due,
        packet: u32,
    ) -> Result<(), AllocError>
        requires turn { TakesTurn net.now trace.now self.old due (Some (turns.Send packet)) }
        requires kind { due.kind ≡ DueKind.Start }
        ensures { OnOk result (HasStepped net.now trace.now self.old self.new) }
    {
        let row = packet_at(trace, packet);
        let rate = rate_at(&self.stations, due.server);
        let left = quotient(Frac::from(row.bits as u64), rate);
        let stretch = work_at(&mut self.stations, due.server, packet, due.time, left);
        self.steps.push(Step::Work {
            server: due.server,
            packet,
            start: due.time,
            end: stretch.end,
            bits: stretch.bits,
        })?;
        Ok(())
    }
}
