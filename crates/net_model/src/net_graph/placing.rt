//! The order of a network's servers.

ghost use Rattle.std.specs.Prelude.{◌≡◌, IfOk, IfErr};
ghost use Rattle.net_model.specs.Orders.{IsOrder};
ghost use Rattle.net_model.specs.net_graph.Faults.{IsGraphFault};

use crate::Network;
use crate::net_graph::cycle::cycle_of;
use crate::net_graph::waits::{first_idle, servers_before};
use std::alloc::{AllocError, AllocFailed, Global};

/// Why a network has no order.
#[derive(Drop)]
pub enum GraphFault {
    /// Servers that come back to the first of them, which is the least; each is right after the one before it on the
    /// path of some live flow, and no other is repeated. Of several such rings it is the one to which one comes from
    /// the least server that can have no place, each time back to the least such server right before.
    Cycle(Vec<u32>),
    /// An allocation was refused.
    NoMemory,
}

impl From<AllocError> for GraphFault {
    ghost use Rattle.std.specs.Prelude.{◌≡◌};
    ghost use Rattle.net_model.specs.declared.net_graph.placing.GraphFault.TheVariants.{NoMemory};

    ghost from_gives = { λ _ e. e ≡ NoMemory };

    fn from(_e: AllocError) -> GraphFault {
        GraphFault::NoMemory
    }
}

impl<T: Drop> From<AllocFailed<T>> for GraphFault {
    ghost use Rattle.std.specs.Prelude.{◌≡◌};
    ghost use Rattle.net_model.specs.declared.net_graph.placing.GraphFault.TheVariants.{NoMemory};

    ghost from_gives = { λ _ e. e ≡ NoMemory };

    fn from(_e: AllocFailed<T>) -> GraphFault {
        GraphFault::NoMemory
    }
}

/// The servers of a network, each after those that some live flow passes right before it: at each turn the least one
/// whose predecessors are all placed. There is one such order, unless the network has a cycle: then the one that is
/// told is the answer. Linear in the hops of all flows, and at each turn one look at each server.
pub fn order(alloc: Global, net: &Network) -> Result<Vec<u32>, GraphFault>
    ensures order { IfOk result (λ v. IsOrder net.now v.items) }
    ensures fault { IfErr result (IsGraphFault net.now) }
{
    let count = net.servers().len();
    let mut before = servers_before(alloc, net)?;
    let mut is_placed = vec![in alloc; false; count]?;
    let mut placed = Vec::with_capacity(alloc, count)?;
    for _turn in 0..count {
        match first_idle(&mut before, &is_placed) {
            Some(server) => {
                is_placed[server] = true;
                placed.push(server as u32)?;
            }
            None => {
                return Err(GraphFault::Cycle(cycle_of(alloc, &before, &is_placed)?));
            }
        }
    }
    Ok(placed)
}
