//! One server of a simulation.

ghost use Rattle.std.specs.Prelude.{◌≡◌, ℕ, ◌<◌, ◌≤◌, pos, Some};
ghost use Rattle.rational.specs.Rational.{ℚ, int, ◌≤ℚ◌, ◌<ℚ◌};
ghost use Rattle.run_laws.specs.Cards.{Card, Arrives, Leaves};
ghost use Rattle.run_laws.specs.Servers.{Under, ServerState};
ghost use Rattle.run_laws.specs.Next.{next};
ghost use Rattle.run_laws.specs.Routes.{server_at};
ghost use Rattle.queue_sched.specs.Turns.{IsCard};
ghost use Rattle.net_model.specs.stated_runs.Setups.{Setup};
ghost use Rattle.sim_servers.specs.Openings.{opening_for, IsInOrder, IsOver, HasOpened, IsSameOpening, OpeningRoom};
ghost use Rattle.sim_servers.specs.Queues.{room_of};
ghost use Rattle.sim_servers.specs.Stations.{IsStation, due_for, rest_for, MayTake, MayLose, IsBeforeStart, IsWorkOf, IsAfterWork, IsWithOneMore, IsWithOneLess, IsNextWork, WorkRoom};

use crate::due::{Due, DueKind};
use crate::opening::Opening;
use crate::server_queues::ServerQueues;
use fraction128::{Frac, difference, is_less, product, sum};
use queue_sched::Scheduler;

/// What is due at a server after its steps so far.
#[derive(Clone, Copy)]
pub enum Next {
    /// Nothing: no packet is there.
    Nothing,
    /// None is under way, and at this time the server opens.
    Start { time: Frac },
    /// The packet under way is to be worked on for so long yet, from this time on.
    Resume { packet: u32, time: Frac, left: Frac },
    /// The packet under way is worked off, and leaves at this time.
    Leave { packet: u32, time: Frac },
}

/// A stretch of work on a packet.
#[derive(Clone, Copy)]
pub struct Stretch {
    pub packet: u32,
    pub start: Frac,
    pub end: Frac,
    pub bits: Frac,
}

/// Work on a packet that goes on at a time, and how long it takes yet.
#[derive(Clone, Copy)]
pub struct Rest {
    pub packet: u32,
    pub time: Frac,
    pub left: Frac,
}

/// A server: its queues, when it works, at which rate, how many packets are there, and what is due next.
#[derive(Drop)]
pub struct Station {
    pub queues: ServerQueues,
    pub opening: Opening,
    pub rate: Frac,
    pub inside: u32,
    pub next: Next,
}

/// What is due at server `server`.
pub fn due_of(next: &Next, server: u32) -> Option<Due>
    ensures { result ≡ due_for next.now server }
{
    match next {
        Next::Nothing => None,
        Next::Start { time } => Some(due_at(*time, DueKind::Start, server)),
        Next::Resume { time, .. } => Some(due_at(*time, DueKind::Resume, server)),
        Next::Leave { time, .. } => Some(due_at(*time, DueKind::Leave, server)),
    }
}

fn due_at(time: Frac, kind: DueKind, server: u32) -> Due
    ensures { result ≡ record { time = time; kind = kind; server = server; packet = 0 } }
{
    Due {
        time,
        kind,
        server,
        packet: 0,
    }
}

/// The work that goes on, if that is due.
pub fn rest_of(next: &Next) -> Option<Rest>
    ensures { result ≡ rest_for next.now }
{
    match next {
        Next::Nothing => None,
        Next::Start { .. } => None,
        Next::Resume { packet, time, left } => Some(Rest {
            packet: *packet,
            time: *time,
            left: *left,
        }),
        Next::Leave { .. } => None,
    }
}

/// What is due where a packet has arrived: a start as soon as the server is open, if none was there before.
fn next_with_one_more(opening: &mut Opening, next: Next, time: Frac) -> Next
    requires order { IsInOrder opening.old }
    requires over { next ≡ Next.Nothing → IsOver opening.old time }
    requires room { OpeningRoom (opening_for opening.old) time }
    ensures order { IsInOrder opening.new }
    ensures same { IsSameOpening opening.old opening.new }
    ensures next { IsWithOneMore opening.old opening.new next time result }
{
    match next {
        Next::Nothing => Next::Start {
            time: opening.opens(time),
        },
        other => other,
    }
}

/// What is due where a packet has left: a start as soon as the server is open, if some are there yet.
fn next_with_one_less(opening: &mut Opening, inside: u32, time: Frac) -> Next
    requires order { IsInOrder opening.old }
    requires over { IsOver opening.old time }
    requires room { OpeningRoom (opening_for opening.old) time }
    ensures order { IsInOrder opening.new }
    ensures same { IsSameOpening opening.old opening.new }
    ensures next { IsWithOneLess opening.old opening.new inside time result }
{
    if inside == 0 {
        return Next::Nothing;
    }
    Next::Start {
        time: opening.opens(time),
    }
}

/// What is due after work on a packet up to a time: it goes on where some time is left, and else the packet leaves.
fn next_after_work(opening: &mut Opening, packet: u32, end: Frac, left: Frac) -> Next
    requires order { IsInOrder opening.old }
    requires over { IsOver opening.old end }
    requires room { OpeningRoom (opening_for opening.old) end }
    ensures order { IsInOrder opening.new }
    ensures same { IsSameOpening opening.old opening.new }
    ensures next { IsNextWork opening.old opening.new packet end left result }
{
    if !is_less(Frac::zero(), left) {
        return Next::Leave { packet, time: end };
    }
    Next::Resume {
        packet,
        time: opening.opens(end),
        left,
    }
}

impl Station {
    /// A packet arrives. If none was there the server starts one as soon as it is open.
    pub fn arrive(&mut self, packet: u32, queue: u32, bits: u32, time: Frac)
        requires take { MayTake self.old packet queue time }
        requires room { OpeningRoom (opening_for self.old.opening) time }
        ensures room { room_of self.new.queues ≡ room_of self.old.queues }
        ensures same { IsSameOpening self.old.opening self.new.opening }
        ensures joined { (S : Setup) (s : ℕ) (σ : ServerState) (c : Card) → IsStation S s σ self.old
            → IsCard c packet queue bits → σ.now ≤ℚ time → IsBeforeStart self.old.next time
            → IsStation S s (next (server_at S.net s).discipline σ (Arrives c time)) self.new }
    {
        self.queues.arrive(packet, queue, bits);
        self.inside += 1;
        self.next = next_with_one_more(&mut self.opening, self.next, time);
    }

    /// The packet under way leaves.
    pub fn leave(&mut self, time: Frac) -> u32
        requires lose { MayLose self.old time }
        requires room { OpeningRoom (opening_for self.old.opening) time }
        ensures room { room_of self.new.queues ≡ room_of self.old.queues }
        ensures same { IsSameOpening self.old.opening self.new.opening }
        ensures left { (S : Setup) (s : ℕ) (σ : ServerState) (u : Under) → IsStation S s σ self.old → σ.under ≡ Some u
            → (u.card.packet ≡ result)
            × IsStation S s (next (server_at S.net s).discipline σ (Leaves u.card time)) self.new }
    {
        let packet = self.queues.finish();
        self.inside -= 1;
        self.next = next_with_one_less(&mut self.opening, self.inside, time);
        packet
    }

    /// Work on a packet, from a time at which the server has opened, which it needs for so long yet: up to its end, or
    /// until the server is no longer open.
    pub fn work(&mut self, packet: u32, start: Frac, left: Frac) -> Stretch
        requires order { IsInOrder self.old.opening }
        requires some { int (pos 0) <ℚ left }
        requires opened { HasOpened self.old.opening start }
        requires room { WorkRoom self.old start left }
        ensures queues { self.new.queues ≡ self.old.queues }
        ensures rate { self.new.rate ≡ self.old.rate }
        ensures inside { self.new.inside ≡ self.old.inside }
        ensures order { IsInOrder self.new.opening }
        ensures same { IsSameOpening self.old.opening self.new.opening }
        ensures work { IsWorkOf (opening_for self.old.opening) self.old.rate packet start left result }
        ensures next { IsAfterWork self.new.opening packet start left result self.new.next }
    {
        let end = self.opening.stays(start, sum(start, left));
        let time = difference(end, start);
        let rest = difference(left, time);
        let bits = product(self.rate, time);
        self.next = next_after_work(&mut self.opening, packet, end, rest);
        Stretch {
            packet,
            start,
            end,
            bits,
        }
    }
}
