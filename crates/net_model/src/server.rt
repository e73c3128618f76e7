//! Servers.

use fraction128::Frac;
use std::alloc::AllocError;
use upp_curve::Curve;

/// How the service curve of a server is given, besides its rate.
#[derive(Clone, Copy)]
pub enum ServiceKind {
    /// The rate after a latency.
    Latency(Frac),
    /// The rate in the last `slot` of each `cycle`.
    Gate { cycle: Frac, slot: Frac },
    /// By its pieces.
    Listed,
}

/// How a server with none under way chooses the packet that it works on next.
#[derive(Drop)]
pub enum Discipline {
    /// The one that came first.
    Fifo,
    /// The first of the first queue that has one.
    Priority { queues: u32 },
    /// Deficit round robin: each queue's quantum, in bits.
    Drr { quanta: Vec<u64> },
}

/// A server.
#[derive(Drop)]
pub struct Server {
    pub name: String,
    /// Bits in a unit of time.
    pub rate: Frac,
    pub kind: ServiceKind,
    /// How many bits it serves at least in a time through which it always has work.
    pub service: Curve,
    /// How long a packet that leaves it is on the way.
    pub link: Frac,
    pub discipline: Discipline,
}

impl Discipline {
    ghost use Rattle.std.specs.Prelude.{◌≡◌, IfOk};
    ghost use Rattle.run_laws.specs.Servers as servers;
    ghost use Rattle.net_model.specs.Quanta as quanta;
    ghost use Rattle.net_model.specs.Views.{discipline_of};

    /// How many queues it serves.
    pub fn queue_count(&self) -> usize
        ensures { result ≡ servers.queue_count (discipline_of self.now) }
    {
        match self {
            Discipline::Fifo => 1,
            Discipline::Priority { queues } => *queues as usize,
            Discipline::Drr { quanta } => quanta.len(),
        }
    }

    /// The same discipline again.
    pub fn copy(&self) -> Result<Discipline, AllocError>
        ensures { IfOk result (λ d. discipline_of d ≡ discipline_of self.now) }
    {
        match self {
            Discipline::Fifo => Ok(Discipline::Fifo),
            Discipline::Priority { queues } => Ok(Discipline::Priority { queues: *queues }),
            Discipline::Drr { quanta } => Ok(Discipline::Drr {
                quanta: quanta.clone()?,
            }),
        }
    }

    /// Whether a queue has a quantum.
    pub fn has_quantum(&self, queue: u64) -> bool
        ensures { result ≡ quanta.is_quantum_of (discipline_of self.now) queue }
    {
        match self {
            Discipline::Fifo => false,
            Discipline::Priority { .. } => false,
            Discipline::Drr { quanta } => queue < quanta.len() as u64,
        }
    }

    /// Whether a packet of so many bits is no longer than the quantum of a queue, where the server has quanta.
    pub fn takes(&self, queue: u32, bits: u32) -> bool
        ensures { result ≡ quanta.is_in_quantum (discipline_of self.now) queue bits }
    {
        match self {
            Discipline::Fifo => true,
            Discipline::Priority { .. } => true,
            Discipline::Drr { quanta } => match quanta.get(queue as usize) {
                Some(quantum) => u64::from(bits) <= *quantum,
                None => bits == 0,
            },
        }
    }

    /// Sets the quantum of a queue, where it has one, to so many bits.
    pub fn set_quantum(&mut self, queue: u32, bits: u32)
        ensures { discipline_of self.new ≡ quanta.set_quantum queue bits (discipline_of self.old) }
    {
        if let Discipline::Drr { quanta } = self {
            let place = queue as usize;
            if place < quanta.len() {
                quanta[place] = u64::from(bits);
            }
        }
    }
}

impl Server {
    ghost use Rattle.std.specs.Prelude.{◌≡◌, IfOk};
    ghost use Rattle.net_model.specs.Views.{server_of};

    /// The same server again.
    pub fn copy(&self) -> Result<Server, AllocError>
        ensures { IfOk result (λ s. server_of s ≡ server_of self.now) }
    {
        Ok(Server {
            name: self.name.clone()?,
            rate: self.rate,
            kind: self.kind,
            service: self.service.copy()?,
            link: self.link,
            discipline: self.discipline.copy()?,
        })
    }
}
