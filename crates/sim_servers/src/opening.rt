//! When a server works: in the slots of its gate, if it has one, and outside its stalls.

ghost use Rattle.std.specs.Prelude.{◌≡◌, ◌≤◌, Some, length};
ghost use Rattle.rational.specs.Rational.{◌≤ℚ◌, ◌<ℚ◌};
ghost use Rattle.net_model.specs.stated_runs.Setups.{IsGate, IsGateFor, IsGateOpen, IsOpenAt, IsFirstGateOpen, IsFirstOpenAt, StaysTo};
ghost use Rattle.sim_servers.specs.Openings.{gate_times, gate_for, times_of, opening_for, BeginsAt, AreInOrder, AreOver, AreToCome, IsInOrder, IsOver, HasOpened, IsSameOpening, GateRoom, OpeningRoom};

use fraction128::{Frac, is_less, product, quotient, sum};

/// A gate is open for a slot at the beginning of each cycle.
#[derive(Clone, Copy)]
pub struct Gate {
    pub cycle: Frac,
    pub slot: Frac,
}

/// A stall, from its start up to its end.
#[derive(Clone, Copy)]
pub struct Span {
    pub start: Frac,
    pub end: Frac,
}

/// When a server works. The stalls stand in the order of their starts; those before `passed` are over.
#[derive(Drop)]
pub struct Opening {
    pub gate: Option<Gate>,
    pub stalls: Vec<Span>,
    pub passed: usize,
}

/// A time at which a server opens, and how many of its stalls are over by then.
#[derive(Clone, Copy)]
struct OpenTime {
    time: Frac,
    passed: usize,
}

/// When the cycle of a time begins.
fn cycle_begin(gate: &Gate, time: Frac) -> Frac
    requires gate { IsGate (gate_times gate.now) }
    requires room { GateRoom (Some (gate_times gate.now)) time }
    ensures { BeginsAt (gate_times gate.now) time result }
{
    let periods = quotient(time, gate.cycle);
    let count = periods.whole_part();
    product(count, gate.cycle)
}

/// The first time from a time on at which a gate is open.
fn opens_in_cycle(gate: &Gate, from: Frac) -> Frac
    requires gate { IsGate (gate_times gate.now) }
    requires room { GateRoom (Some (gate_times gate.now)) from }
    ensures { IsFirstGateOpen (Some (gate_times gate.now)) from result }
{
    let begin = cycle_begin(gate, from);
    let close = sum(begin, gate.slot);
    if is_less(from, close) {
        return from;
    }
    sum(begin, gate.cycle)
}

/// The first time from a time on at which the gate is open, if there is one.
fn gate_opens(gate: &Option<Gate>, from: Frac) -> Frac
    requires gate { IsGateFor (gate_for gate.now) }
    requires room { GateRoom (gate_for gate.now) from }
    ensures { IsFirstGateOpen (gate_for gate.now) from result }
{
    match gate {
        Some(gate) => opens_in_cycle(gate, from),
        None => from,
    }
}

/// How long a gate stays open from a time at which it is, at most until a time. One whose slot is its cycle never
/// closes.
fn stays_in_cycle(gate: &Gate, from: Frac, until: Frac) -> Frac
    requires gate { IsGate (gate_times gate.now) }
    requires room { GateRoom (Some (gate_times gate.now)) from }
    requires forward { from <ℚ until }
    requires open_then { IsGateOpen (Some (gate_times gate.now)) from }
    ensures { StaysTo (IsGateOpen (Some (gate_times gate.now))) from until result }
{
    if !is_less(gate.slot, gate.cycle) {
        return until;
    }
    let begin = cycle_begin(gate, from);
    let close = sum(begin, gate.slot);
    if is_less(close, until) {
        return close;
    }
    until
}

/// How long the gate stays open, if there is one.
fn gate_stays(gate: &Option<Gate>, from: Frac, until: Frac) -> Frac
    requires gate { IsGateFor (gate_for gate.now) }
    requires room { GateRoom (gate_for gate.now) from }
    requires forward { from <ℚ until }
    requires open_then { IsGateOpen (gate_for gate.now) from }
    ensures { StaysTo (IsGateOpen (gate_for gate.now)) from until result }
{
    match gate {
        Some(gate) => stays_in_cycle(gate, from, until),
        None => until,
    }
}

/// The time itself where a stall is over by then, and else the first time from its end on at which the gate is open.
fn past_stall(gate: &Option<Gate>, time: Frac, end: Frac) -> Frac
    requires gate { IsGateFor (gate_for gate.now) }
    requires room { GateRoom (gate_for gate.now) end }
    ensures over { end ≤ℚ time → result ≡ time }
    ensures stalled { time <ℚ end → IsFirstGateOpen (gate_for gate.now) end result }
{
    if is_less(time, end) {
        return gate_opens(gate, end);
    }
    time
}

/// The first time from a time on at which a server is neither stalled nor closed, where so many stalls are over.
fn first_open(gate: &Option<Gate>, stalls: &[Span], passed: usize, from: Frac) -> OpenTime
    requires gate { IsGateFor (gate_for gate.now) }
    requires order { AreInOrder stalls.now }
    requires within { passed ≤ length stalls.now }
    requires over { AreOver stalls.now passed from }
    requires room { OpeningRoom (times_of gate.now stalls.now) from }
    ensures opens { IsFirstOpenAt (times_of gate.now stalls.now) from result.time }
    ensures within { result.passed ≤ length stalls.now }
    ensures over { AreOver stalls.now result.passed result.time }
    ensures ahead { AreToCome stalls.now result.passed result.time }
{
    let mut time = gate_opens(gate, from);
    for index in passed..stalls.len() {
        if is_less(time, stalls[index].start) {
            return OpenTime {
                time,
                passed: index,
            };
        }
        time = past_stall(gate, time, stalls[index].end);
    }
    OpenTime {
        time,
        passed: stalls.len(),
    }
}

impl Opening {
    /// The first time from a time on at which the server is neither stalled nor closed. Stalls that are over by then
    /// are passed for good.
    pub fn opens(&mut self, from: Frac) -> Frac
        requires order { IsInOrder self.old }
        requires over { IsOver self.old from }
        requires room { OpeningRoom (opening_for self.old) from }
        ensures order { IsInOrder self.new }
        ensures same { IsSameOpening self.old self.new }
        ensures opens { IsFirstOpenAt (opening_for self.old) from result }
        ensures opened { HasOpened self.new result }
    {
        let found = first_open(&self.gate, &self.stalls, self.passed, from);
        self.passed = found.passed;
        found.time
    }

    /// How long the server stays open from a time at which it has opened, at most until a time.
    pub fn stays(&self, from: Frac, until: Frac) -> Frac
        requires order { IsInOrder self.now }
        requires room { GateRoom (gate_for self.now.gate) from }
        requires forward { from <ℚ until }
        requires opened { HasOpened self.now from }
        ensures { StaysTo (IsOpenAt (opening_for self.now)) from until result }
    {
        let end = gate_stays(&self.gate, from, until);
        if self.passed == self.stalls.len() {
            return end;
        }
        let start = self.stalls[self.passed].start;
        if is_less(start, end) {
            return start;
        }
        end
    }
}
