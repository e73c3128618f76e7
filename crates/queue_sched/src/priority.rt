//! Fixed priorities.

ghost use Rattle.std.specs.Prelude.{◌≡◌, ◌<◌, ℕ, IfOk, IfSome, IfNone, Some, None, length, replicate, []};
ghost use Rattle.queue_sched.specs.index_links.Chains.{first_of, list_at};
ghost use Rattle.run_laws.specs.Servers.{Priority, start};
ghost use Rattle.queue_sched.specs.Waiting.{WaitsByPriority};

use crate::index_links::Links;
use crate::scheduler::Scheduler;
use crate::turn::Turn;
use std::alloc::{AllocError, Global};
use std::marker::Model;

/// A scheduler of several queues, of which the first that has a packet is served first. Contracts see its queues, and
/// the queue of the packet under way.
#[derive(Drop)]
pub struct PrioritySched {
    queues: Links,
    count: u32,
    serving: u32,
}

impl Model for PrioritySched {
    ghost use Rattle.std.specs.Prelude.{◌≡◌, length};
    ghost use Rattle.queue_sched.specs.Waiting.{PriorityState};

    ghost Value = { PriorityState };

    ghost view = { λ a. record { waiting = a.queues; serving = a.serving } };

    ghost invariant = { λ a. length a.queues.lists ≡ a.count };
}

/// The first packet of the first queue that has one.
#[derive(Clone, Copy)]
struct First {
    queue: u32,
    packet: u32,
}

/// What is to be served first, if anything waits.
fn first_waiting(queues: &Links, count: u32) -> Option<First>
    requires { length queues.now.lists ≡ count }
    ensures known { IfSome result (λ r. r.queue < count) }
    ensures first { IfSome result (λ r. first_of (list_at queues.now r.queue) ≡ Some r.packet) }
    ensures before { IfSome result (λ r. (q : ℕ) → q < r.queue → first_of (list_at queues.now q) ≡ None) }
    ensures none { IfNone result ((q : ℕ) → q < count → first_of (list_at queues.now q) ≡ None) }
{
    for queue in 0..count {
        if let Some(packet) = queues.first(queue) {
            return Some(First { queue, packet });
        }
    }
    None
}

impl PrioritySched {
    /// So many queues, of which queue 0 is the highest, and room for so many packets, of which none is there. Refused
    /// only for want of memory.
    pub fn new(alloc: Global, packets: u32, queues: u32) -> Result<PrioritySched, AllocError>
        ensures room { IfOk result (λ s. s.waiting.nodes ≡ packets) }
        ensures queues { IfOk result (λ s. length s.waiting.lists ≡ queues) }
        ensures stands { IfOk result (λ s. WaitsByPriority s (start (Priority queues))) }
    {
        Ok(PrioritySched {
            queues: Links::new(alloc, packets, queues)?,
            count: queues,
            serving: 0,
        })
    }
}

impl Scheduler for PrioritySched {
    ghost use Rattle.std.specs.Prelude.{ℕ, length};
    ghost use Rattle.run_laws.specs.Servers.{Priority};
    ghost use Rattle.queue_sched.specs.Waiting.{PriorityState, WaitsByPriority};
    ghost use Rattle.queue_sched.specs.Moves.{priority_goes_on};

    ghost discipline = { λ v. Priority (length v.waiting.lists) };

    ghost room = { λ v. v.waiting.nodes };

    ghost StandsFor = { WaitsByPriority };

    fn arrive(&mut self, packet: u32, queue: u32, _bits: u32) {
        self.queues.push_tail(queue, packet);
    }

    fn start(&mut self) -> Option<Turn> {
        let first = first_waiting(&self.queues, self.count)?;
        self.serving = first.queue;
        Some(Turn::Send(first.packet))
    }

    fn finish(&mut self) -> u32 {
        match self.queues.pop_head(self.serving) {
            Some(packet) => packet,
            None => 0,
        }
    }

    ghost goes_on = { priority_goes_on };
}
