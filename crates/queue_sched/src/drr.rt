//! Deficit round robin.

ghost use Rattle.std.specs.Prelude.{◌≡◌, ◌≢◌, ◌<◌, ◌≤◌, ◌+◌, ◌-◌, ◌^◌, ℕ, true, false, IfOk, Some, None, IsSome, length, replicate, [], ◌∷◌, ◌++◌, get_or, set, drop, nat_le, slice_index};
ghost use Rattle.run_laws.specs.Next.{to_tail};
ghost use Rattle.queue_sched.specs.DrrStates.{DrrState, joined, fitting, with_deficit, turned, left_with, opened, HasRoom, WaitsInTurn, fresh};
ghost use Rattle.queue_sched.specs.index_links.Chains.{first_of, list_at, IsFree, with_list, AreDisjoint};
ghost use Rattle.run_laws.specs.Servers.{Drr, start};

use crate::index_links::Links;
use crate::scheduler::Scheduler;
use crate::turn::Turn;
use std::alloc::{AllocError, Global};
use std::marker::Model;

/// A scheduler of several queues that takes each queue in turn. Contracts see its queues, the queues that wait for a
/// visit, what each queue may still send, and the queue whose visit is open.
#[derive(Drop)]
pub struct DrrSched {
    queues: Links,
    turns: Links,
    quanta: Vec<u64>,
    deficits: Vec<u64>,
    lengths: Vec<u32>,
    visited: Option<u32>,
}

impl Model for DrrSched {
    ghost use Rattle.queue_sched.specs.DrrStates.{DrrState};

    ghost Value = { DrrState };

    ghost view = { λ a. record {
      waiting = a.queues;
      turns = a.turns;
      quanta = a.quanta.items;
      deficits = a.deficits.items;
      lengths = a.lengths.items;
      visited = a.visited;
    } };
}

/// A queue joins those that wait for a visit, where it is not among them.
fn join(turns: &mut Links, queue: u32, waits: bool)
    requires list { 0 < length turns.old.lists }
    requires node { queue < turns.old.nodes }
    requires free { waits ≡ false → IsFree turns.old queue }
    ensures { turns.new ≡ joined waits queue turns.old }
{
    if !waits {
        turns.push_tail(0, queue);
    }
}

/// The head of the list goes to its tail.
fn rotate(turns: &mut Links)
    requires list { 0 < length turns.old.lists }
    requires some { first_of (list_at turns.old 0) ≢ None }
    ensures { turns.new ≡ with_list turns.old 0 (to_tail (list_at turns.old 0)) }
{
    turns.are_disjoint();
    if let Some(queue) = turns.pop_head(0) {
        turns.push_tail(0, queue);
    }
}

/// Whether the first packet of a queue is no longer than this.
fn head_fits(queues: &Links, lengths: &[u32], queue: u32, deficit: u64) -> bool
    requires known { queue < length queues.now.lists }
    requires nodes { queues.now.nodes ≡ length lengths.now }
    ensures { result ≡ fitting (first_of (list_at queues.now queue)) lengths.now deficit }
{
    queues.are_disjoint();
    match queues.first(queue) {
        Some(packet) => lengths[packet as usize] as u64 <= deficit,
        None => false,
    }
}

/// The lists of a scheduler.
#[derive(Drop)]
struct Lists {
    /// Of each queue its packets.
    waiting: Links,
    /// One list, of the queues that wait for a visit.
    turns: Links,
}

/// The numbers of a scheduler.
#[derive(Drop)]
struct Numbers {
    /// Of each queue what each visit adds to its deficit, in bits.
    quanta: Vec<u64>,
    /// Of each queue the bits that it may still send in its visit.
    deficits: Vec<u64>,
    /// Of each packet its bits.
    lengths: Vec<u32>,
}

/// The lists of so many queues: no packet is there, and no queue waits for a visit.
fn fresh_lists(alloc: Global, packets: u32, queues: u32) -> Result<Lists, AllocError>
    ensures waiting { IfOk result (λ l. l.waiting ≡ record { nodes = packets; lists = replicate queues [] }) }
    ensures turns { IfOk result (λ l. l.turns ≡ record { nodes = queues; lists = replicate 1 [] }) }
{
    let waiting = Links::new(alloc, packets, queues)?;
    let turns = Links::new(alloc, queues, 1)?;
    Ok(Lists { waiting, turns })
}

/// The quanta, no deficit, and no bits of each packet.
fn fresh_numbers(alloc: Global, packets: u32, quanta: &[u64]) -> Result<Numbers, AllocError>
    ensures quanta { IfOk result (λ n. n.quanta.items ≡ quanta.now) }
    ensures deficits { IfOk result (λ n. n.deficits.items ≡ replicate (length quanta.now) 0) }
    ensures lengths { IfOk result (λ n. n.lengths.items ≡ replicate packets 0) }
{
    let kept = Vec::from_slice(alloc, quanta)?;
    let deficits = vec![in alloc; 0; quanta.len()]?;
    let lengths = vec![in alloc; 0; packets as usize]?;
    Ok(Numbers {
        quanta: kept,
        deficits,
        lengths,
    })
}

impl DrrSched {
    /// A queue for each quantum, in bits and at most 2^24, and room for so many packets, of which none is there.
    /// Refused only for want of memory.
    pub fn new(alloc: Global, packets: u32, quanta: &[u64]) -> Result<DrrSched, AllocError>
        requires few { length quanta.now < 2 ^ 32 }
        requires small { (q : ℕ) → get_or quanta.now q 0 ≤ 2 ^ 24 }
        ensures room { IfOk result (λ s. s.waiting.nodes ≡ packets) }
        ensures quanta { IfOk result (λ s. s.quanta ≡ quanta.now) }
        ensures stands { IfOk result (λ s. WaitsInTurn s (start (Drr quanta.now))) }
    {
        let made = DrrSched::made(alloc, packets, quanta)?;
        Ok(made)
    }

    /// All parts as they are at first.
    fn made(alloc: Global, packets: u32, quanta: &[u64]) -> Result<DrrSched, AllocError>
        requires { length quanta.now < 2 ^ 32 }
        ensures { IfOk result (λ s. s ≡ fresh packets quanta.now) }
    {
        let queues = quanta.len() as u32;
        let Lists { waiting, turns } = fresh_lists(alloc, packets, queues)?;
        let Numbers {
            quanta: kept,
            deficits,
            lengths,
        } = fresh_numbers(alloc, packets, quanta)?;
        Ok(DrrSched {
            queues: waiting,
            turns,
            quanta: kept,
            deficits,
            lengths,
            visited: None,
        })
    }

    /// The queue's first packet spends its bits.
    fn spend(&mut self, queue: u32, packet: u32)
        requires queue { queue < length self.old.deficits }
        requires packet { packet < length self.old.lengths }
        requires enough { get_or self.old.lengths packet 0 ≤ get_or self.old.deficits queue 0 }
        ensures { self.new ≡ with_deficit self.old queue
            (get_or self.old.deficits queue 0 - get_or self.old.lengths packet 0) }
    {
        let bits = self.lengths[packet as usize];
        let deficit = self.deficits[queue as usize];
        self.deficits[queue as usize] = deficit - bits as u64;
    }

    /// The queue's visit goes on, or it ends.
    fn open(&mut self, queue: u32, fits: bool)
        requires list { 0 < length self.old.turns.lists }
        requires some { first_of (list_at self.old.turns 0) ≢ None }
        ensures { self.new ≡ opened fits queue self.old }
    {
        if fits {
            self.visited = Some(queue);
        } else {
            rotate(&mut self.turns);
            self.visited = None;
        }
    }

    /// A visit of a queue.
    fn turn_to(&mut self, queue: u32)
        requires room { HasRoom self.old }
        requires queue { queue < length self.old.deficits }
        requires same { length self.old.deficits ≡ length self.old.quanta }
        requires few { get_or self.old.deficits queue 0 ≤ 2 ^ 33 }
        requires some { first_of (list_at self.old.turns 0) ≢ None }
        ensures { self.new ≡ turned self.old queue }
    {
        let deficit = self.deficits[queue as usize] + self.quanta[queue as usize];
        let fits = head_fits(&self.queues, &self.lengths, queue, deficit);
        self.deficits[queue as usize] = deficit;
        self.open(queue, fits);
    }

    /// A packet of the queue left.
    fn settle(&mut self, queue: u32)
        requires room { HasRoom self.old }
        requires queue { queue < length self.old.deficits }
        requires same { length self.old.deficits ≡ length self.old.quanta }
        requires some { first_of (list_at self.old.turns 0) ≢ None }
        ensures { self.new ≡ left_with (first_of (list_at self.old.waiting queue)) self.old queue }
    {
        match self.queues.first(queue) {
            Some(_) => {
                let deficit = self.deficits[queue as usize];
                let fits = head_fits(&self.queues, &self.lengths, queue, deficit);
                self.open(queue, fits);
            }
            None => {
                self.turns.pop_head(0);
                self.deficits[queue as usize] = 0;
                self.visited = None;
            }
        }
    }
}

impl Scheduler for DrrSched {
    ghost use Rattle.std.specs.Prelude.{ℕ};
    ghost use Rattle.run_laws.specs.Servers.{Drr};
    ghost use Rattle.queue_sched.specs.DrrStates.{DrrState, WaitsInTurn, drr_goes_on};

    ghost discipline = { λ v. Drr v.quanta };

    ghost room = { λ v. v.waiting.nodes };

    ghost StandsFor = { WaitsInTurn };

    fn arrive(&mut self, packet: u32, queue: u32, bits: u32) {
        let waits = self.queues.first(queue).is_some();
        join(&mut self.turns, queue, waits);
        self.queues.push_tail(queue, packet);
        self.lengths[packet as usize] = bits;
    }

    fn start(&mut self) -> Option<Turn> {
        match self.visited {
            Some(queue) => {
                self.queues.are_disjoint();
                let packet = self.queues.first(queue)?;
                self.spend(queue, packet);
                Some(Turn::Send(packet))
            }
            None => {
                let queue = self.turns.first(0)?;
                self.turn_to(queue);
                Some(Turn::Visit(queue))
            }
        }
    }

    fn finish(&mut self) -> u32 {
        let queue = match self.visited {
            Some(queue) => queue,
            None => return 0,
        };
        match self.queues.pop_head(queue) {
            Some(packet) => {
                self.settle(queue);
                packet
            }
            None => 0,
        }
    }

    ghost goes_on = { drr_goes_on };
}
