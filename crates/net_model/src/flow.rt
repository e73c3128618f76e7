//! Flows.

use std::alloc::AllocError;
use upp_curve::Curve;

/// A flow: packets that go over the same servers in the same order.
#[derive(Drop)]
pub struct Flow {
    pub name: String,
    /// The numbers of its servers, in order.
    pub path: Vec<u32>,
    /// Its queue at each of them.
    pub queues: Vec<u32>,
    /// The bits of its longest packet.
    pub packet: u32,
    /// How many bits enter at most in a closed window of time.
    pub arrival: Curve,
}

impl Flow {
    ghost use Rattle.std.specs.Prelude.{◌≡◌, IfOk};
    ghost use Rattle.net_model.specs.Views.{flow_of};

    /// The same flow again.
    pub fn copy(&self) -> Result<Flow, AllocError>
        ensures { IfOk result (λ f. flow_of f ≡ flow_of self.now) }
    {
        Ok(Flow {
            name: self.name.clone()?,
            path: self.path.clone()?,
            queues: self.queues.clone()?,
            packet: self.packet,
            arrival: self.arrival.copy()?,
        })
    }
}
