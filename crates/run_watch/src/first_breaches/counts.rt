//! How many flows and servers a network has.

ghost use Rattle.std.specs.Prelude.{◌≡◌, length};
ghost use Rattle.net_model.specs.Accepted.{IsAccepted};

use net_model::Network;

/// How many places for flows it has.
pub(crate) fn flow_count(net: &Network) -> u32
    ensures count { result ≡ length net.now.flows }
    ensures kept { IsAccepted net.now }
{
    let flows = net.flows();
    flows.len() as u32
}

/// How many servers it has.
pub(crate) fn server_count(net: &Network) -> u32
    ensures count { result ≡ length net.now.servers }
    ensures kept { IsAccepted net.now }
{
    let servers = net.servers();
    servers.len() as u32
}
