//! The walk over the rows of a recorded run.

ghost use Rattle.std.specs.Prelude.{◌≡◌, ◌<◌, ◌↔◌, ◌++◌, ◌∷◌, [], ℕ, List, IsTrue, IfOk, OnOk, length, get_or, set};
ghost use Rattle.rational.specs.Rational.{ℚ};
ghost use Rattle.rational.specs.Ratio.{SumFits};
ghost use Rattle.run_laws.specs.Lawful.{RunState};
ghost use Rattle.run_laws.specs.declared.steps.Step.{Step as SpecStep};
ghost use Rattle.run_check.specs.broken_laws.FirstBroken.{IsUnfinished};
ghost use Rattle.run_laws.specs.Routes.{Routes, link_at};
ghost use Rattle.run_laws.specs.declared.steps.Step.TheVariants as steps;
ghost use Rattle.net_model.specs.NetRoutes.{routes_of};
ghost use Rattle.run_check.specs.broken_laws.Tracked.{place_of};
ghost use Rattle.run_check.specs.Following.{Follows, Goes};
ghost use Rattle.run_check.specs.Walks.{work_of, reached_by, left_by, Keeps, Stands, Told, fresh_for, sent_places};

use crate::broken_laws::Law;
use crate::ends::some_complete;
use crate::rows::{arrive_row, is_out_at, leave_row, visit_row, work_row};
use crate::site::{Known, Piece, Site};
use crate::ways::{destination, has_left, pace_of};
use fraction128::Frac;
use net_model::Network;
use run_laws::{Run, Step, whole};
use run_packets::{Place, is_due, some_late};
use simulator::sim_routes::{entrance, queue_of};
use std::alloc::AllocError;

/// A packet that reaches a server or leaves it, as a row has it.
#[derive(Clone, Copy)]
pub(crate) struct Passage {
    pub(crate) server: u32,
    pub(crate) packet: u32,
    pub(crate) time: Frac,
}

fn passage_of(server: u32, packet: u32, time: Frac) -> Passage
    ensures { result ≡ record { server = server; packet = packet; time = time } }
{
    Passage {
        server,
        packet,
        time,
    }
}

/// What is known after some rows: the flow and the bits of each packet that has entered, where it is, and the site of
/// each server.
#[derive(Drop)]
pub(crate) struct Walk {
    pub(crate) flows: Vec<u32>,
    pub(crate) bits: Vec<u32>,
    pub(crate) places: Vec<Place>,
    pub(crate) sites: Vec<Site>,
}

impl Walk {
    /// A row with a visit.
    pub(crate) fn visit(&mut self, end: Frac, server: u32, queue: u32, time: Frac) -> Option<Law>
        requires { (net : Routes) × Stands net (steps.Visit server queue time) self.old }
        ensures { (net : Routes) (k : Stands net (steps.Visit server queue time) self.old)
            → Told net (steps.Visit server queue time) self.old k end self.new result }
    {
        visit_row(&mut self.sites, server, end, queue, time)
    }

    /// A row that has a packet leave.
    pub(crate) fn leave(&mut self, net: &Network, end: Frac, at: &Passage) -> Option<Law>
        requires { Stands (routes_of net.now) (left_by at.now) self.old }
        ensures { (k : Stands (routes_of net.now) (left_by at.now) self.old)
            → Told (routes_of net.now) (left_by at.now) self.old k end self.new result }
    {
        let known = self.is_known(at.packet);
        match leave_row(&mut self.sites, at.server, end, known, at.packet, at.time) {
            Some(law) => Some(law),
            None => {
                self.send(net, at.server, at.packet, at.time);
                None
            }
        }
    }

    /// Whether so many packets have entered.
    fn is_known(&self, packet: u32) -> bool
        ensures { IsTrue result ↔ (packet < length self.now.flows.items) }
    {
        (packet as usize) < self.flows.len()
    }

    /// A packet that leaves a server is on its way to the next one of its path, or gone.
    fn send(&mut self, net: &Network, server: u32, packet: u32, time: Frac)
        requires flow { packet < length self.old.flows.items }
        requires place { packet < length self.old.places.items }
        requires fits { SumFits time (link_at (routes_of net.now) server) }
        ensures places { self.new.places.items ≡ sent_places (routes_of net.now) self.old server packet time }
        ensures flows { self.new.flows.items ≡ self.old.flows.items }
        ensures bits { self.new.bits.items ≡ self.old.bits.items }
        ensures sites { self.new.sites.items ≡ self.old.sites.items }
    {
        let flow = self.flows[packet as usize];
        self.places[packet as usize] = destination(net, flow, server, time);
    }

    /// What is yet to be worked of a packet at a server at which none is under way: nothing where it has left, and
    /// where it has not entered.
    fn fresh(&self, net: &Network, server: u32, packet: u32) -> Frac
        requires places { length self.now.flows.items ≡ length self.now.places.items }
        requires bits { length self.now.flows.items ≡ length self.now.bits.items }
        ensures { result ≡ fresh_for (routes_of net.now) self.now server packet }
    {
        let number = packet as usize;
        if number >= self.flows.len() {
            return Frac::zero();
        }
        if has_left(net, self.flows[number], &self.places[number], server) {
            return Frac::zero();
        }
        whole(self.bits[number])
    }

    /// A row with work on a packet.
    pub(crate) fn work(
        &mut self,
        net: &Network,
        end: Frac,
        server: u32,
        piece: &Piece,
    ) -> Option<Law>
        requires { Stands (routes_of net.now) (work_of server piece.now) self.old }
        ensures { (k : Stands (routes_of net.now) (work_of server piece.now) self.old)
            → Told (routes_of net.now) (work_of server piece.now) self.old k end self.new result }
    {
        let entered = self.is_known(piece.packet);
        let fresh = self.fresh(net, server, piece.packet);
        let pace = pace_of(net, server);
        let known = Known {
            entered,
            fresh,
            pace,
        };
        work_row(&mut self.sites, server, end, &known, piece)
    }

    /// A row that has a packet reach a server.
    pub(crate) fn reach(&mut self, net: &Network, end: Frac, at: &Passage) -> Option<Law>
        requires { Stands (routes_of net.now) (reached_by at.now) self.old }
        ensures { (k : Stands (routes_of net.now) (reached_by at.now) self.old)
            → Told (routes_of net.now) (reached_by at.now) self.old k end self.new result }
    {
        if is_out_at(&self.sites, at.server, end, at.time) {
            return Some(Law::L1);
        }
        if !self.is_known(at.packet) {
            return Some(Law::L2);
        }
        if !self.is_due(at.packet, at.server, at.time) {
            return Some(Law::L3);
        }
        let queue = queue_of(net, self.flow_of(at.packet), at.server);
        let bits = self.bits_of(at.packet);
        self.settle(at.packet, at.server);
        arrive_row(&mut self.sites, at.server, at.packet, queue, bits, at.time);
        None
    }

    /// Whether a packet is due at a server at a time.
    fn is_due(&self, packet: u32, server: u32, time: Frac) -> bool
        requires { packet < length self.now.places.items }
        ensures { IsTrue result ↔ (place_of self.now.places.items packet ≡ Place.OnLink server time) }
    {
        is_due(&self.places[packet as usize], server, time)
    }

    /// The flow of a packet.
    fn flow_of(&self, packet: u32) -> u32
        requires { packet < length self.now.flows.items }
        ensures { result ≡ get_or self.now.flows.items packet 0 }
    {
        self.flows[packet as usize]
    }

    /// The bits of a packet.
    fn bits_of(&self, packet: u32) -> u32
        requires { packet < length self.now.bits.items }
        ensures { result ≡ get_or self.now.bits.items packet 0 }
    {
        self.bits[packet as usize]
    }

    /// A packet is at a server now.
    fn settle(&mut self, packet: u32, server: u32)
        requires { packet < length self.old.places.items }
        ensures places { self.new.places.items ≡ set self.old.places.items packet (Place.At server) }
        ensures flows { self.new.flows.items ≡ self.old.flows.items }
        ensures bits { self.new.bits.items ≡ self.old.bits.items }
        ensures sites { self.new.sites.items ≡ self.old.sites.items }
    {
        self.places[packet as usize] = Place::At { server };
    }

    /// A packet is known now, and at a server.
    fn admit(&mut self, flow: u32, bits: u32, server: u32) -> Result<(), AllocError>
        ensures places { OnOk result (self.new.places.items ≡ self.old.places.items ++ Place.At server ∷ []) }
        ensures flows { OnOk result (self.new.flows.items ≡ self.old.flows.items ++ flow ∷ []) }
        ensures bits { OnOk result (self.new.bits.items ≡ self.old.bits.items ++ bits ∷ []) }
        ensures sites { self.new.sites.items ≡ self.old.sites.items }
    {
        self.flows.push(flow)?;
        self.bits.push(bits)?;
        self.places.push(Place::At { server })?;
        Ok(())
    }

    /// A row that has a packet enter.
    pub(crate) fn enter(
        &mut self,
        net: &Network,
        end: Frac,
        flow: u32,
        packet: u32,
        time: Frac,
        bits: u32,
    ) -> Result<Option<Law>, AllocError>
        requires { Stands (routes_of net.now) (steps.Enter flow packet time bits) self.old }
        ensures { IfOk result (λ answer. (k : Stands (routes_of net.now) (steps.Enter flow packet time bits) self.old)
            → Told (routes_of net.now) (steps.Enter flow packet time bits) self.old k end self.new answer) }
    {
        let server = entrance(net, flow);
        if is_out_at(&self.sites, server, end, time) {
            return Ok(Some(Law::L1));
        }
        let queue = queue_of(net, flow, server);
        self.admit(flow, bits, server)?;
        arrive_row(&mut self.sites, server, packet, queue, bits, time);
        Ok(None)
    }
}

impl Walk {
    /// One row more of a recorded run: which law it breaks first, if any.
    pub(crate) fn tell(
        &mut self,
        net: &Network,
        run: &Run,
        place: usize,
    ) -> Result<Option<Law>, AllocError>
        requires more { place < length run.now.steps }
        requires follows { Follows (routes_of net.now) run.now place self.old }
        ensures { IfOk result (Goes (routes_of net.now) run.now place self.new) }
    {
        let end = run.end;
        match run.steps[place] {
            Step::Enter {
                flow,
                packet,
                time,
                bits,
            } => self.enter(net, end, flow, packet, time, bits),
            Step::Reach {
                server,
                packet,
                time,
            } => Ok(self.reach(net, end, &passage_of(server, packet, time))),
            Step::Work {
                server,
                packet,
                start,
                end: last,
                bits,
            } => {
                let piece = Piece {
                    packet,
                    start,
                    end: last,
                    bits,
                };
                Ok(self.work(net, end, server, &piece))
            }
            Step::Leave {
                server,
                packet,
                time,
            } => Ok(self.leave(net, end, &passage_of(server, packet, time))),
            Step::Visit {
                server,
                queue,
                time,
            } => Ok(self.visit(end, server, queue, time)),
        }
    }
}

impl Walk {
    /// Whether at the run's end a packet on a link should have reached its server, or one that is worked off has not
    /// left.
    pub(crate) fn is_unfinished(&self, end: Frac) -> bool
        ensures { (net : Routes) (room grid : ℕ) (most : ℚ) (before : List SpecStep) (r : RunState)
            → Keeps net room grid most before r self.now → IsTrue result ↔ IsUnfinished end r }
    {
        if some_late(&self.places, end) {
            return true;
        }
        some_complete(&self.sites)
    }
}
