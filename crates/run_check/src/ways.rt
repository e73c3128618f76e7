//! Where the packets of a recorded run go.

ghost use Rattle.std.specs.Prelude.{◌≡◌, ℕ, List, length};
ghost use Rattle.rational.specs.Rational.{◌+ℚ◌};
ghost use Rattle.rational.specs.Ratio.{SumFits};
ghost use Rattle.run_laws.specs.Routes.{route_of, link_at, server_after, server_at};
ghost use Rattle.net_model.specs.NetRoutes.{routes_of, hops_along};
ghost use Rattle.run_check.specs.broken_laws.Tracked.{is_on, is_before, has_left as spec_has_left, place_after};

use fraction128::{Frac, sum};
use net_cells::{live_flow, server};
use net_model::Network;
use run_packets::Place;
use simulator::sim_routes::{link_of, next_server};

/// How many bits a unit of time a server works at most, where that is limited: its rate in version 2.
pub(crate) fn pace_of(net: &Network, number: u32) -> Option<Frac>
    ensures { result ≡ (server_at (routes_of net.now) number).pace }
{
    if net.version() != 2 {
        return None;
    }
    match server(net, number) {
        Some(found) => Some(found.rate),
        None => None,
    }
}

/// Whether a server stands on a path before another, or on a path without that one.
fn stands_before(path: &[u32], other: u32, server: u32) -> bool
    ensures { (queues : List ℕ) → length queues ≡ length path.now
        → result ≡ is_before other server (hops_along path.now queues) }
{
    for at in path {
        if *at == server {
            return false;
        }
        if *at == other {
            return true;
        }
    }
    false
}

/// Whether a path has a server.
fn passes(path: &[u32], server: u32) -> bool
    ensures { (queues : List ℕ) → length queues ≡ length path.now → result ≡ is_on server (hops_along path.now queues) }
{
    for at in path {
        if *at == server {
            return true;
        }
    }
    false
}

/// Whether a packet of a flow that is in this place has left a server.
pub(crate) fn has_left(net: &Network, flow: u32, place: &Place, server: u32) -> bool
    ensures { result ≡ spec_has_left place.now (route_of (routes_of net.now) flow).hops server }
{
    let Some(found) = live_flow(net, flow) else {
        return false;
    };
    match place {
        Place::At { server: at } => stands_before(&found.path, server, *at),
        Place::OnLink { server: at, .. } => stands_before(&found.path, server, *at),
        Place::Gone => passes(&found.path, server),
    }
}

/// Where a packet of a flow is that leaves a server at a time: on its way to the next, or gone.
pub(crate) fn destination(net: &Network, flow: u32, server: u32, time: Frac) -> Place
    requires { SumFits time (link_at (routes_of net.now) server) }
    ensures { result ≡ place_after (server_after server (route_of (routes_of net.now) flow).hops)
        (time +ℚ link_at (routes_of net.now) server) }
{
    match next_server(net, flow, server) {
        Some(next) => Place::OnLink {
            server: next,
            time: sum(time, link_of(net, server)),
        },
        None => Place::Gone,
    }
}
