//! What an edit puts into a network.

ghost use Rattle.std.specs.Prelude.{◌≡◌, IfOk, OnErr};
ghost use Rattle.std.specs.Option.{option_map};
ghost use Rattle.net_model.specs.Accepted.{IsAccepted};
ghost use Rattle.net_model.specs.Views.{flow_of};
ghost use Rattle.net_edits.specs.Changed as spec;

use crate::replacing::{with_flow, with_more, with_server};
use net_model::{Flow, Network, Server};
use std::alloc::AllocError;

/// What is put into a network.
#[derive(Drop)]
pub enum Change {
    /// A server in the place of that of a number.
    Server(u32, Server),
    /// A flow in the place of that of a number, or none.
    Flow(u32, Option<Flow>),
    /// One flow more.
    More(Flow),
}

/// The flow of a place again, or none.
pub fn copied_flow(place: &Option<Flow>) -> Result<Option<Flow>, AllocError>
    ensures { IfOk result (λ f. option_map flow_of f ≡ option_map flow_of place.now) }
{
    match place {
        None => Ok(None),
        Some(found) => Ok(Some(found.copy()?)),
    }
}

impl Change {
    ghost use Rattle.std.specs.Prelude.{◌≡◌, IfOk};
    ghost use Rattle.net_model.specs.Networks.{Net};
    ghost use Rattle.net_edits.specs.Changed.{changed};

    /// The same again.
    pub fn copy(&self) -> Result<Change, AllocError>
        ensures { IfOk result (λ c. (net : Net) → changed c net ≡ changed self.now net) }
    {
        match self {
            Change::Server(number, server) => Ok(Change::Server(*number, server.copy()?)),
            Change::Flow(number, place) => Ok(Change::Flow(*number, copied_flow(place)?)),
            Change::More(flow) => Ok(Change::More(flow.copy()?)),
        }
    }
}

/// The network with a change. It takes the network, and copies nothing of it. Refused only for one flow more, where there
/// is no memory: the other changes take none.
pub fn changed(net: Network, change: Change) -> Result<Network, AllocError>
    requires { IsAccepted (spec.changed change net) }
    ensures changed { IfOk result (λ n. n ≡ spec.changed change net) }
    ensures refused { OnErr result (spec.IsMore change) }
{
    match change {
        Change::Server(number, server) => Ok(with_server(net, number, server)),
        Change::Flow(number, place) => Ok(with_flow(net, number, place)),
        Change::More(flow) => with_more(net, flow),
    }
}
