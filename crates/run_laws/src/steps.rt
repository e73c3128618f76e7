ghost use Rattle.std.specs.Prelude.{◌≡◌};

use fraction128::Frac;
use std::marker::Model;

/// One action of one server or of one source, with its time. Times and bits are in the units of the network; a lawful
/// run has its times from 0 to its end.
#[derive(Debug, Clone, Copy)]
pub enum Step {
    /// A packet of at least 1 bit enters the network at its flow's first server. Packets are numbered over the whole
    /// run, from 0, in the order in which they enter.
    Enter {
        flow: u32,
        packet: u32,
        time: Frac,
        bits: u32,
    },
    /// A packet reaches the next server of its path, a link after it left the server before.
    Reach {
        server: u32,
        packet: u32,
        time: Frac,
    },
    /// A server works on a packet, at an even pace from `start` to `end`. A packet may be worked in several parts,
    /// which come to at most its bits.
    Work {
        server: u32,
        packet: u32,
        start: Frac,
        end: Frac,
        bits: Frac,
    },
    /// A packet leaves a server, at the end of its last work.
    Leave {
        server: u32,
        packet: u32,
        time: Frac,
    },
    /// A deficit round robin server turns to a queue, and adds the quantum to its deficit.
    Visit {
        server: u32,
        queue: u32,
        time: Frac,
    },
}

/// What is recorded of a network up to the time `end`: its steps, in an order in which those of one server follow each
/// other in time, and those of different servers may be mixed in any way. Contracts see the list of steps and the end.
#[derive(Drop)]
pub struct Run {
    pub steps: Vec<Step>,
    pub end: Frac,
}

impl Model for Run {
    ghost use Rattle.run_laws.specs.Runs.{SpecRun};

    ghost Value = { SpecRun };

    ghost view = { λ r. record { steps = r.steps.items; end = r.end } };
}
