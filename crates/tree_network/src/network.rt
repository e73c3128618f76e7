//! Ports, links and networks.

/// A gate that is open for the slot at the end of each cycle, in picoseconds.
#[derive(Clone, Copy)]
pub struct Gate {
    /// From one opening to the next.
    pub cycle: u64,
    /// How long it is open in each cycle: above 0, and at most the cycle.
    pub slot: u64,
}

/// How a port with no frame under way chooses the one that it sends next.
#[derive(Drop)]
pub enum Discipline {
    /// The one that came first.
    Fifo,
    /// The first of the first queue that has one, of so many queues.
    Priority(usize),
    /// Deficit round robin: each queue's quantum, in bits.
    Drr(Vec<u64>),
}

/// An output port of an end system or a switch.
#[derive(Drop)]
pub struct Port {
    /// Grains a second that it sends at least, rounded down.
    pub rate: u64,
    /// Grains a second that it sends at most: the same rate, rounded up.
    pub pace: u64,
    /// How long it may stand still, in picoseconds, rounded up.
    pub latency: u64,
    /// How long a frame that leaves is on the way to the next port, in picoseconds, rounded up.
    pub link: u64,
    /// How it chooses the frame that it sends next, and from how many queues.
    pub discipline: Discipline,
    /// When it may send, where it may not always.
    pub gate: Option<Gate>,
}

/// A port of a link's tree. It is kept in 8 bytes, since all nodes are gone over again and again.
#[derive(Clone, Copy)]
pub struct Node {
    /// The number of the port.
    pub port: u16,
    /// The queue of the link's frames there.
    pub queue: u8,
    /// The place in the link's `nodes` of the one from which its frames come; none where they begin.
    pub from: Option<u16>,
}

/// A multicast link: frames that go over a tree of ports.
#[derive(Drop)]
pub struct Link {
    /// The longest frame with what goes with it on the wire, in bits.
    pub frame: u64,
    /// The least time from one frame to the next, in picoseconds, rounded down.
    pub gap: u64,
    /// How much earlier than by its gap a frame may come, in picoseconds, rounded up.
    pub jitter: u64,
    /// The ports of its tree: where it begins first, and each other one after the one from which it comes.
    pub nodes: Vec<Node>,
}

/// Ports, and the links over them.
#[derive(Drop)]
pub struct Network {
    /// At most 4,096. A port's number is its place.
    pub ports: Vec<Port>,
    /// At most 16,384. A link's number is its place.
    pub links: Vec<Link>,
}

impl Discipline {
    ghost use Rattle.std.specs.Prelude.{◌≡◌};
    ghost use Rattle.tree_network.specs.Networks.{queues_of};

    /// How many queues it serves.
    pub fn queue_count(&self) -> usize
        ensures { result ≡ queues_of self.now }
    {
        match self {
            Discipline::Fifo => 1,
            Discipline::Priority(queues) => *queues,
            Discipline::Drr(quanta) => quanta.len(),
        }
    }
}
