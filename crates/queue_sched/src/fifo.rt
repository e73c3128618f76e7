//! First in, first out.

ghost use Rattle.std.specs.Prelude.{◌≡◌, IfOk, replicate, [], List, ℕ};
ghost use Rattle.run_laws.specs.Servers.{Fifo, start};
ghost use Rattle.queue_sched.specs.Waiting.{Waits};

use crate::index_links::Links;
use crate::scheduler::Scheduler;
use crate::turn::Turn;
use std::alloc::{AllocError, Global};
use std::marker::Model;

/// A scheduler of one queue. Contracts see it as the lists of its packets.
#[derive(Drop)]
pub struct FifoSched {
    queue: Links,
}

impl Model for FifoSched {
    ghost use Rattle.std.specs.Prelude.{◌≡◌, length};
    ghost use Rattle.queue_sched.specs.index_links.Chains.{Chains};

    ghost Value = { Chains };

    ghost view = { λ a. a.queue };

    ghost invariant = { λ a. length a.queue.lists ≡ 1 };
}

impl FifoSched {
    /// Room for so many packets, of which none is there. Refused only for want of memory.
    pub fn new(alloc: Global, packets: u32) -> Result<FifoSched, AllocError>
        ensures room { IfOk result (λ s. s.nodes ≡ packets) }
        ensures stands { IfOk result (λ s. Waits s (start Fifo)) }
    {
        Ok(FifoSched {
            queue: Links::new(alloc, packets, 1)?,
        })
    }
}

impl Scheduler for FifoSched {
    ghost use Rattle.std.specs.Prelude.{ℕ};
    ghost use Rattle.queue_sched.specs.index_links.Chains.{Chains};
    ghost use Rattle.run_laws.specs.Servers.{Fifo};
    ghost use Rattle.queue_sched.specs.Waiting.{Waits};
    ghost use Rattle.queue_sched.specs.Moves.{fifo_goes_on};

    ghost discipline = { λ _. Fifo };

    ghost room = { λ v. v.nodes };

    ghost StandsFor = { Waits };

    fn arrive(&mut self, packet: u32, _queue: u32, _bits: u32) {
        self.queue.push_tail(0, packet);
    }

    fn start(&mut self) -> Option<Turn> {
        let packet = self.queue.first(0)?;
        Some(Turn::Send(packet))
    }

    fn finish(&mut self) -> u32 {
        match self.queue.pop_head(0) {
            Some(packet) => packet,
            None => 0,
        }
    }

    ghost goes_on = { fifo_goes_on };
}
