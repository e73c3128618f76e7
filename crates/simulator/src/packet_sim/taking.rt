//! Steps in which a packet arrives at a server or leaves it.

ghost use Rattle.std.specs.Prelude.{◌≡◌, OnOk};
ghost use Rattle.simulator.specs.packet_sim.Stepping.{ComesNext, HasStepped};

use crate::packet_sim::reads::packet_at;
use crate::packet_sim::simulation::Simulation;
use crate::sim_routes::{entrance, link_of, next_server, queue_of};
use fraction128::sum;
use net_model::{Network, Trace};
use run_laws::Step;
use sim_servers::sim_loop::{arrive_at, leave_at};
use sim_servers::sim_states::Arrival;
use sim_servers::{Due, DueKind};
use std::alloc::AllocError;

impl Simulation {
    /// The next packet of the trace enters.
    pub(crate) fn enter(&mut self, net: &Network, trace: &Trace, due: Due) -> Result<(), AllocError>
        requires next { ComesNext net.now trace.now self.old due }
        requires kind { due.kind ≡ DueKind.Enter }
        ensures { OnOk result (HasStepped net.now trace.now self.old self.new) }
    {
        let packet = packet_at(trace, due.packet);
        let server = entrance(net, packet.flow);
        let queue = queue_of(net, packet.flow, server);
        self.steps.push(Step::Enter {
            flow: packet.flow,
            packet: due.packet,
            time: due.time,
            bits: packet.bits,
        })?;
        self.entered += 1;
        arrive_at(
            &mut self.stations,
            server,
            due.packet,
            queue,
            packet.bits,
            due.time,
        );
        Ok(())
    }

    /// A packet reaches a server.
    pub(crate) fn reach(&mut self, net: &Network, trace: &Trace, due: Due) -> Result<(), AllocError>
        requires next { ComesNext net.now trace.now self.old due }
        requires kind { due.kind ≡ DueKind.Reach }
        ensures { OnOk result (HasStepped net.now trace.now self.old self.new) }
    {
        let packet = packet_at(trace, due.packet);
        let queue = queue_of(net, packet.flow, due.server);
        self.steps.push(Step::Reach {
            server: due.server,
            packet: due.packet,
            time: due.time,
        })?;
        self.links.unlink(due.packet);
        arrive_at(
            &mut self.stations,
            due.server,
            due.packet,
            queue,
            packet.bits,
            due.time,
        );
        Ok(())
    }

    /// A packet leaves a server, for the next one on its path if there is one.
    pub(crate) fn leave(&mut self, net: &Network, trace: &Trace, due: Due) -> Result<(), AllocError>
        requires next { ComesNext net.now trace.now self.old due }
        requires kind { due.kind ≡ DueKind.Leave }
        ensures { OnOk result (HasStepped net.now trace.now self.old self.new) }
    {
        let number = leave_at(&mut self.stations, due.server, due.time);
        self.steps.push(Step::Leave {
            server: due.server,
            packet: number,
            time: due.time,
        })?;
        let packet = packet_at(trace, number);
        match next_server(net, packet.flow, due.server) {
            Some(server) => {
                let time = sum(due.time, link_of(net, due.server));
                self.arrivals[number as usize] = Arrival { server, time };
                self.links.push_tail(due.server, number);
                Ok(())
            }
            None => Ok(()),
        }
    }
}
