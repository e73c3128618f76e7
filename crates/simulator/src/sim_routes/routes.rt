//! The paths of flows.

ghost use Rattle.std.specs.Prelude.{◌≡◌};
ghost use Rattle.run_laws.specs.Routes.{queue_at, server_after, route_of, link_at, first_server, last_server};
ghost use Rattle.net_model.specs.NetRoutes.{routes_of};

use crate::sim_routes::paths::{first_on, last_on, queue_on, server_after_on};
use fraction128::Frac;
use net_cells::{live_flow, server};
use net_model::Network;

/// The queue of a flow at a server; 0 where it does not pass there, or is not live.
pub fn queue_of(net: &Network, flow: u32, server: u32) -> u32
    ensures { result ≡ queue_at server (route_of (routes_of net.now) flow).hops }
{
    match live_flow(net, flow) {
        Some(found) => queue_on(&found.path, &found.queues, server),
        None => 0,
    }
}

/// The server after a server on the path of a flow, if there is one.
pub fn next_server(net: &Network, flow: u32, server: u32) -> Option<u32>
    ensures { result ≡ server_after server (route_of (routes_of net.now) flow).hops }
{
    match live_flow(net, flow) {
        Some(found) => server_after_on(&found.path, &found.queues, server),
        None => None,
    }
}

/// The first server of a flow; 0 where it is not live.
pub fn entrance(net: &Network, flow: u32) -> u32
    ensures { result ≡ first_server (route_of (routes_of net.now) flow).hops }
{
    match live_flow(net, flow) {
        Some(found) => first_on(&found.path, &found.queues),
        None => 0,
    }
}

/// The last server of a flow; 0 where it is not live.
pub fn exit(net: &Network, flow: u32) -> u32
    ensures { result ≡ last_server (route_of (routes_of net.now) flow).hops }
{
    match live_flow(net, flow) {
        Some(found) => last_on(&found.path, &found.queues),
        None => 0,
    }
}

/// How long a packet that leaves a server is on the way to the next. (Past the last server it means nothing.)
pub fn link_of(net: &Network, number: u32) -> Frac
    ensures { result ≡ link_at (routes_of net.now) number }
{
    match server(net, number) {
        Some(found) => found.link,
        None => Frac::zero(),
    }
}
