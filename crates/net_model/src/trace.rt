//! Traces: which packets enter a network and when, and when its servers stall.

use fraction128::Frac;
use std::marker::Model;

/// A packet that enters at the first server of its flow.
#[derive(Clone, Copy)]
pub struct TracePacket {
    /// When it enters, from 0 on.
    pub time: Frac,
    /// The number of its flow.
    pub flow: u32,
    /// 1 to 2^24.
    pub bits: u32,
}

/// A time through which a server does no work: from its start up to its end, and not at its end.
#[derive(Clone, Copy)]
pub struct Stall {
    /// The number of the server.
    pub server: u32,
    /// From 0 on.
    pub start: Frac,
    /// After the start.
    pub end: Frac,
}

/// The packets that enter a network, in the order of their times, and the stalls of its servers in any order: together
/// at most 10,000, a limit of our own choice. What a trace keeps is in its type.
#[derive(Drop)]
pub struct Trace {
    packets: Vec<TracePacket>,
    stalls: Vec<Stall>,
}

impl Model for Trace {
    ghost use Rattle.net_model.specs.Traces.{SpecTrace, IsTrace, trace_of};

    ghost Value = { SpecTrace };

    ghost view = { λ a. trace_of a.packets.items a.stalls.items };

    ghost invariant = { λ a. IsTrace (trace_of a.packets.items a.stalls.items) };
}

impl Trace {
    ghost use Rattle.std.specs.Prelude.{◌≡◌};
    ghost use Rattle.net_model.specs.Traces.{IsTrace, trace_of};

    /// The trace of packets and stalls that may stand together.
    pub fn new(packets: Vec<TracePacket>, stalls: Vec<Stall>) -> Trace
        requires { IsTrace (trace_of packets.items stalls.items) }
        ensures { result ≡ trace_of packets.items stalls.items }
    {
        Trace { packets, stalls }
    }

    /// The packets, in the order in which they enter.
    pub fn packets(&self) -> &[TracePacket]
        ensures packets { result.now ≡ self.now.packets }
        ensures kept { IsTrace self.now }
    {
        &self.packets
    }

    /// The stalls, in the order in which they were given.
    pub fn stalls(&self) -> &[Stall]
        ensures stalls { result.now ≡ self.now.stalls }
        ensures kept { IsTrace self.now }
    {
        &self.stalls
    }
}
