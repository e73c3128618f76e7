//! Whether packets are within the quanta of their queues.

ghost use Rattle.std.specs.Prelude.{◌≡◌, ◌<◌, ℕ, Some, IsSome, length, slice_get, slice_set};
ghost use Rattle.std.specs.List.{list_all};
ghost use Rattle.std.specs.Option.{option_map};
ghost use Rattle.net_model.specs.Quanta.{is_in_quantum};
ghost use Rattle.net_model.specs.Views.{flow_of, flows_of, server_of, servers_of};
ghost use Rattle.net_cells.specs.Numbered as at;
ghost use Rattle.net_edits.specs.Changed.{put_server, put_flow};
ghost use Rattle.net_edits.specs.Values as spec;

use net_model::{Flow, Network, Server};

fn is_taken(servers: &[Server], server: u32, queue: u32, bits: u32) -> bool
    ensures { result ≡ is_in_quantum (at.discipline_of (slice_get (servers_of servers.now) server)) queue bits }
{
    match servers.get(server as usize) {
        Some(found) => found.discipline.takes(queue, bits),
        None => true,
    }
}

/// Whether a packet of so many bits is within the quanta of the queues along a path.
pub(crate) fn fits_along(servers: &[Server], bits: u32, path: &[u32], lanes: &[u32]) -> bool
    ensures { result ≡ spec.fits_along (servers_of servers.now) bits path.now lanes.now }
{
    let count = path.len().min(lanes.len());
    for hop in 0..count {
        if !is_taken(servers, path[hop], lanes[hop], bits) {
            return false;
        }
    }
    true
}

// The same with a server at a number.
fn is_taken_with(
    servers: &[Server],
    number: u32,
    server: &Server,
    hop: u32,
    queue: u32,
    bits: u32,
) -> bool
    requires { number < length servers.now }
    ensures { let all = slice_set (servers_of servers.now) number (server_of server.now) in
        result ≡ is_in_quantum (at.discipline_of (slice_get all hop)) queue bits }
{
    if hop == number {
        server.discipline.takes(queue, bits)
    } else {
        is_taken(servers, hop, queue, bits)
    }
}

// Whether a packet fits along a path, with a server at a number.
fn fits_with(
    servers: &[Server],
    number: u32,
    server: &Server,
    bits: u32,
    path: &[u32],
    lanes: &[u32],
) -> bool
    requires { number < length servers.now }
    ensures { let all = slice_set (servers_of servers.now) number (server_of server.now) in
        result ≡ spec.fits_along all bits path.now lanes.now }
{
    let count = path.len().min(lanes.len());
    for hop in 0..count {
        if !is_taken_with(servers, number, server, path[hop], lanes[hop], bits) {
            return false;
        }
    }
    true
}

fn place_fits(servers: &[Server], number: u32, server: &Server, place: &Option<Flow>) -> bool
    requires { number < length servers.now }
    ensures { let all = slice_set (servers_of servers.now) number (server_of server.now) in
        result ≡ spec.place_fits all (option_map flow_of place.now) }
{
    match place {
        Some(flow) => fits_with(
            servers,
            number,
            server,
            flow.packet,
            &flow.path,
            &flow.queues,
        ),
        None => true,
    }
}

// Whether no quantum is below the longest packet of the flows in its queue, with a server at a number.
fn all_fit(servers: &[Server], number: u32, server: &Server, flows: &[Option<Flow>]) -> bool
    requires { number < length servers.now }
    ensures { let all = slice_set (servers_of servers.now) number (server_of server.now) in
        result ≡ list_all (spec.place_fits all) (flows_of flows.now) }
{
    for place in flows {
        if !place_fits(servers, number, server, place) {
            return false;
        }
    }
    true
}

/// Whether no quantum would be below a packet in its queue, with a server at a number. Nothing is copied for it.
pub(crate) fn server_fits(net: &Network, number: u32, server: &Server) -> bool
    requires { number < length net.now.servers }
    ensures { result ≡ spec.quanta_fit (put_server net.now number (server_of server.now)) }
{
    all_fit(net.servers(), number, server, net.flows())
}

/// Whether none would be, with a flow at the number of a live one.
pub(crate) fn flow_fits(net: &Network, flow: &Flow) -> bool
    ensures { (i : ℕ) → IsSome (at.flow_at net.now i) →
        result ≡ spec.quanta_fit (put_flow net.now i (Some (flow_of flow.now))) }
{
    fits_along(net.servers(), flow.packet, &flow.path, &flow.queues)
}
