//! One server of a recorded run, after some of its rows.

ghost use Rattle.std.specs.Prelude.{◌≡◌, ◌↔◌, ◌⊎◌, ℕ, None, IfOk, IsTrue};
ghost use Rattle.rational.specs.Rational.{ℚ, ◌<ℚ◌};
ghost use Rattle.run_laws.specs.Cards.{Card, Arrives, Leaves};
ghost use Rattle.run_laws.specs.Servers.{Discipline as SpecDiscipline, ServerState, start};
ghost use Rattle.run_laws.specs.Next.{next};
ghost use Rattle.run_laws.specs.Allows.{MayLeave};
ghost use Rattle.queue_sched.specs.Turns.{IsCard};
ghost use Rattle.net_model.specs.Accepted.{HasFewQueues};
ghost use Rattle.net_model.specs.Views.{discipline_of};
ghost use Rattle.run_check.specs.Sites.{LeaveAnswer, VisitAnswer, WorkAnswer, TakesOn, IsFast, HasPace};
ghost use Rattle.run_check.specs.Sites.{WorkRoom, IsOnGrid, IsFine, IsFresh};
ghost use Rattle.run_check.specs.Sites.{IsSite, KeepsSome, MayLose};
ghost use Rattle.run_check.specs.Sites.{IsWrong, MayTake, Turns, Starts};

use crate::broken_laws::Law;
use fraction128::{Frac, difference, is_less, quotient};
use net_model::Discipline;
use queue_sched::{Scheduler, Turn};
use run_packets::{Underway, is_other, may_leave, rest};
use sim_servers::ServerQueues;
use std::alloc::{AllocError, Global};

/// A piece of work on a packet, as a row has it.
#[derive(Clone, Copy)]
pub(crate) struct Piece {
    pub(crate) packet: u32,
    pub(crate) start: Frac,
    pub(crate) end: Frac,
    pub(crate) bits: Frac,
}

impl Piece {
    /// Whether the work is faster than a pace, where that is limited; it takes time.
    fn is_faster(&self, pace: Option<Frac>) -> bool
        requires forward { self.now.start <ℚ self.now.end }
        requires fits { HasPace self.now.start self.now.end self.now.bits }
        ensures { IsTrue result ↔ IsFast pace self.now }
    {
        match pace {
            Some(most) => {
                let time = difference(self.end, self.start);
                is_less(most, quotient(self.bits, time))
            }
            None => false,
        }
    }
}

/// What is known of the packet and of the server of a row with work: whether the packet has entered, what is yet to be
/// worked of it where none is under way, and how many bits a unit of time the server works at most, where that is limited.
#[derive(Clone, Copy)]
pub(crate) struct Known {
    pub(crate) entered: bool,
    pub(crate) fresh: Frac,
    pub(crate) pace: Option<Frac>,
}

/// One server: the time of its last step, the end of its last work, the packet under way, and its queues.
#[derive(Drop)]
pub(crate) struct Site {
    pub(crate) latest: Frac,
    pub(crate) busy: Frac,
    pub(crate) under: Option<Underway>,
    pub(crate) queues: ServerQueues,
}

impl Site {
    /// A server at which nothing has been, with room for so many packets.
    pub(crate) fn new(
        alloc: Global,
        packets: u32,
        discipline: &Discipline,
    ) -> Result<Site, AllocError>
        requires { HasFewQueues (discipline_of discipline.now) }
        ensures site { IfOk result
            (λ v. IsSite (discipline_of discipline.now) packets (start (discipline_of discipline.now)) v) }
        ensures idle { IfOk result (λ v. v.under ≡ None) }
    {
        Ok(Site {
            latest: Frac::zero(),
            busy: Frac::zero(),
            under: None,
            queues: ServerQueues::new(alloc, packets, discipline)?,
        })
    }

    /// Whether a time is before the last step here, or after the end of the run.
    pub(crate) fn is_out_of_time(&self, end: Frac, time: Frac) -> bool
        ensures { IsTrue result ↔ ((time <ℚ self.now.latest) ⊎ (end <ℚ time)) }
    {
        is_less(time, self.latest) || is_less(end, time)
    }

    /// Whether work is wrong by itself: it takes no time, does no bits, starts before the last work ends, is of another
    /// packet than that under way, or of more bits than `rest`, which are yet to be worked of its packet.
    pub(crate) fn is_wrong(&self, piece: &Piece, rest: Frac) -> bool
        ensures { IsTrue result ↔ IsWrong self.now piece.now rest }
    {
        if !is_less(piece.start, piece.end) {
            return true;
        }
        if !is_less(Frac::zero(), piece.bits) {
            return true;
        }
        if is_less(piece.start, self.busy) {
            return true;
        }
        is_other(&self.under, piece.packet) || is_less(rest, piece.bits)
    }

    /// A packet arrives.
    pub(crate) fn arrive(&mut self, packet: u32, queue: u32, bits: u32, time: Frac)
        requires { MayTake self.old packet queue }
        ensures joined { (d : SpecDiscipline) (room : ℕ) (σ : ServerState) (c : Card) → IsSite d room σ self.old
            → IsCard c packet queue bits → IsSite d room (next d σ (Arrives c time)) self.new }
        ensures under { self.new.under ≡ self.old.under }
    {
        self.queues.arrive(packet, queue, bits);
        self.latest = time;
    }

    /// The packet under way leaves.
    pub(crate) fn leave(&mut self, time: Frac)
        requires { MayLose self.old }
        ensures left { (d : SpecDiscipline) (room : ℕ) (σ : ServerState) (c : Card) → IsSite d room σ self.old
            → MayLeave σ.under c time → IsSite d room (next d σ (Leaves c time)) self.new }
        ensures under { self.new.under ≡ None }
    {
        self.queues.finish();
        self.under = None;
        self.latest = time;
    }

    /// A row that has the packet under way leave: which law it breaks first, if any; where it breaks none, it has left.
    pub(crate) fn leave_at(
        &mut self,
        end: Frac,
        known: bool,
        packet: u32,
        time: Frac,
    ) -> Option<Law>
        requires { KeepsSome self.old }
        ensures answer { (d : SpecDiscipline) (room : ℕ) (σ : ServerState) → IsSite d room σ self.old
            → LeaveAnswer d room σ end known packet time self.new result }
        ensures under { result ≡ None → self.new.under ≡ None }
    {
        if self.is_out_of_time(end, time) {
            return Some(Law::L1);
        }
        if !known {
            return Some(Law::L2);
        }
        if !may_leave(&self.under, packet, time) {
            return Some(Law::L6);
        }
        self.leave(time);
        None
    }

    /// A row with a visit of a queue: which law it breaks first, if any; where it breaks none, the visit is made.
    pub(crate) fn visit_at(&mut self, end: Frac, queue: u32, time: Frac) -> Option<Law>
        requires { KeepsSome self.old }
        ensures answer { (d : SpecDiscipline) (room : ℕ) (σ : ServerState) → IsSite d room σ self.old
            → VisitAnswer d room σ end queue time self.new result }
        ensures under { self.new.under ≡ self.old.under }
    {
        if self.is_out_of_time(end, time) {
            return Some(Law::L1);
        }
        if !self.visit(queue, time) {
            return Some(Law::L7);
        }
        None
    }

    /// Whether the packet is under way, or may start; then the queues have it under way. No other is under way.
    fn takes_on(&mut self, packet: u32) -> bool
        requires { KeepsSome self.old }
        ensures { (d : SpecDiscipline) (room : ℕ) (σ : ServerState) → IsSite d room σ self.old
            → TakesOn d room σ self.old self.new packet result }
    {
        match self.under {
            Some(_) => true,
            None => self.starts(packet),
        }
    }

    /// A row with work on a packet: which law it breaks first, if any; where it breaks none, the work is done.
    pub(crate) fn work_at(&mut self, end: Frac, known: &Known, piece: &Piece) -> Option<Law>
        requires some { KeepsSome self.old }
        requires room { WorkRoom self.old known.now.fresh piece.now }
        ensures answer { (d : SpecDiscipline) (room : ℕ) (σ : ServerState) → IsSite d room σ self.old
            → IsFresh d σ piece.now.packet known.now.fresh
            → WorkAnswer d room σ end known.now.entered known.now.fresh known.now.pace piece.now self.new result }
        ensures fine { (grid : ℕ) (most : ℚ) → IsOnGrid grid most self.old known.now.fresh piece.now → result ≡ None
            → IsFine grid most self.new }
    {
        if self.is_out_of_time(end, piece.start) || is_less(end, piece.end) {
            return Some(Law::L1);
        }
        if !known.entered {
            return Some(Law::L2);
        }
        let rest = rest(&self.under, known.fresh);
        if self.is_wrong(piece, rest) {
            return Some(Law::L4);
        }
        if !self.takes_on(piece.packet) {
            return Some(Law::L5);
        }
        if piece.is_faster(known.pace) {
            return Some(Law::L8);
        }
        let left = difference(rest, piece.bits);
        self.latest = piece.start;
        self.busy = piece.end;
        self.under = Some(Underway {
            packet: piece.packet,
            left,
            end: piece.end,
        });
        None
    }

    /// Makes a visit of a queue, where the discipline allows it, and answers whether it does.
    fn visit(&mut self, queue: u32, time: Frac) -> bool
        requires { KeepsSome self.old }
        ensures turns { (d : SpecDiscipline) (room : ℕ) (σ : ServerState) → IsSite d room σ self.old
            → Turns d room σ self.new queue time result }
        ensures under { self.new.under ≡ self.old.under }
    {
        match self.under {
            Some(_) => false,
            None => self.turns(queue, time),
        }
    }

    /// The same where none is under way.
    fn turns(&mut self, queue: u32, time: Frac) -> bool
        requires some { KeepsSome self.old }
        requires idle { self.old.under ≡ None }
        ensures turns { (d : SpecDiscipline) (room : ℕ) (σ : ServerState) → IsSite d room σ self.old
            → Turns d room σ self.new queue time result }
        ensures under { self.new.under ≡ self.old.under }
    {
        match self.queues.start() {
            Some(Turn::Visit(turned)) => {
                self.latest = time;
                turned == queue
            }
            Some(Turn::Send(_)) => false,
            None => false,
        }
    }

    /// Whether the packet is the one that the discipline picks, where none is under way; then the queues have it under
    /// way.
    fn starts(&mut self, packet: u32) -> bool
        requires some { KeepsSome self.old }
        requires idle { self.old.under ≡ None }
        ensures { (d : SpecDiscipline) (room : ℕ) (σ : ServerState) → IsSite d room σ self.old
            → Starts d room σ self.old self.new packet result }
    {
        match self.queues.start() {
            Some(Turn::Send(sent)) => sent == packet,
            Some(Turn::Visit(_)) => false,
            None => false,
        }
    }
}
