//! The queues of a server, by its discipline.

ghost use Rattle.std.specs.Prelude.{◌≡◌, IfOk};
ghost use Rattle.run_laws.specs.Servers.{start};
ghost use Rattle.net_model.specs.Accepted.{HasFewQueues};
ghost use Rattle.net_model.specs.Views.{discipline_of};
ghost use Rattle.sim_servers.specs.Queues.{served_by, room_of, StandFor};

use net_model::Discipline;
use queue_sched::{DrrSched, FifoSched, PrioritySched, Scheduler, Turn};
use std::alloc::{AllocError, Global};

/// The scheduler of a server, of any discipline.
#[derive(Drop)]
pub enum ServerQueues {
    Fifo(FifoSched),
    Priority(PrioritySched),
    Drr(DrrSched),
}

impl ServerQueues {
    /// Queues without a packet, with room for so many.
    pub fn new(
        alloc: Global,
        packets: u32,
        discipline: &Discipline,
    ) -> Result<ServerQueues, AllocError>
        requires { HasFewQueues (discipline_of discipline.now) }
        ensures discipline { IfOk result (λ v. served_by v ≡ discipline_of discipline.now) }
        ensures room { IfOk result (λ v. room_of v ≡ packets) }
        ensures stands { IfOk result (λ v. StandFor v (start (discipline_of discipline.now))) }
    {
        match discipline {
            Discipline::Fifo => Ok(ServerQueues::Fifo(FifoSched::new(alloc, packets)?)),
            Discipline::Priority { queues } => Ok(ServerQueues::Priority(PrioritySched::new(
                alloc, packets, *queues,
            )?)),
            Discipline::Drr { quanta } => {
                Ok(ServerQueues::Drr(DrrSched::new(alloc, packets, quanta)?))
            }
        }
    }
}

impl Scheduler for ServerQueues {
    ghost use Rattle.std.specs.Prelude.{ℕ};
    ghost use Rattle.sim_servers.specs.Queues.{served_by, room_of, StandFor, work_goes_on};

    ghost discipline = { served_by };

    ghost room = { room_of };

    ghost StandsFor = { StandFor };

    fn arrive(&mut self, packet: u32, queue: u32, bits: u32) {
        match self {
            ServerQueues::Fifo(queues) => queues.arrive(packet, queue, bits),
            ServerQueues::Priority(queues) => queues.arrive(packet, queue, bits),
            ServerQueues::Drr(queues) => queues.arrive(packet, queue, bits),
        }
    }

    fn start(&mut self) -> Option<Turn> {
        match self {
            ServerQueues::Fifo(queues) => queues.start(),
            ServerQueues::Priority(queues) => queues.start(),
            ServerQueues::Drr(queues) => queues.start(),
        }
    }

    fn finish(&mut self) -> u32 {
        match self {
            ServerQueues::Fifo(queues) => queues.finish(),
            ServerQueues::Priority(queues) => queues.finish(),
            ServerQueues::Drr(queues) => queues.finish(),
        }
    }

    ghost goes_on = { work_goes_on };
}
