//! What a network has at a number.

ghost use Rattle.std.specs.Prelude.{◌≡◌, ◌≤◌, IfSome, slice_get, slice_index};
ghost use Rattle.std.specs.Option.{option_map};
ghost use Rattle.net_model.specs.Accepted.{IsFlow, IsServer};
ghost use Rattle.net_model.specs.Views as views;
ghost use Rattle.net_cells.specs.Numbered as at;

use net_model::{Discipline, Flow, Network, Server};

/// The live flow of a number.
pub fn live_flow<'a>(net: &'a Network, flow: u32) -> Option<&'a Flow>
    ensures flow { option_map (λ f. views.flow_of f.now) result ≡ at.flow_at net.now flow }
    ensures kept { IfSome result (λ f. IsFlow net.now.servers (views.flow_of f.now)) }
{
    let flows = net.flows();
    let place = flow as usize;
    if place < flows.len() {
        match &flows[place] {
            Some(found) => Some(found),
            None => None,
        }
    } else {
        None
    }
}

/// How many hops a flow has; 0 where it is not live.
pub fn hops(net: &Network, flow: u32) -> u32
    ensures hops { result ≡ at.hops net.now flow }
    ensures few { result ≤ 16 }
{
    match live_flow(net, flow) {
        Some(found) => found.path.len() as u32,
        None => 0,
    }
}

// The number at a place; 0 past the last.
pub(crate) fn number_at(numbers: &[u32], place: u32) -> u32
    ensures { result ≡ slice_index numbers.now place }
{
    let place = place as usize;
    if place < numbers.len() {
        numbers[place]
    } else {
        0
    }
}

/// The server of a hop; 0 where there is no such hop.
pub fn server_of_hop(net: &Network, flow: u32, hop: u32) -> u32
    ensures { result ≡ at.server_of_hop net.now flow hop }
{
    match live_flow(net, flow) {
        Some(found) => number_at(&found.path, hop),
        None => 0,
    }
}

/// The flow's queue at a hop; 0 where there is no such hop.
pub fn queue_of_hop(net: &Network, flow: u32, hop: u32) -> u32
    ensures { result ≡ at.queue_of_hop net.now flow hop }
{
    match live_flow(net, flow) {
        Some(found) => number_at(&found.queues, hop),
        None => 0,
    }
}

/// The server of a number.
pub fn server<'a>(net: &'a Network, number: u32) -> Option<&'a Server>
    ensures server { option_map (λ s. views.server_of s.now) result ≡ slice_get net.now.servers number }
    ensures kept { IfSome result (λ s. IsServer (views.server_of s.now)) }
{
    let servers = net.servers();
    let place = number as usize;
    if place < servers.len() {
        Some(&servers[place])
    } else {
        None
    }
}

/// Whether a server serves its queues by priority. (Past the last server it means nothing.)
pub fn is_by_priority(net: &Network, number: u32) -> bool
    ensures { result ≡ at.is_by_priority (at.discipline net.now number) }
{
    match server(net, number) {
        Some(found) => match &found.discipline {
            Discipline::Fifo => false,
            Discipline::Priority { .. } => true,
            Discipline::Drr { .. } => false,
        },
        None => true,
    }
}

fn level_count(discipline: &Discipline) -> u32
    ensures { result ≡ at.levels_of (views.discipline_of discipline.now) }
{
    match discipline {
        Discipline::Fifo => 0,
        Discipline::Priority { queues } => *queues,
        Discipline::Drr { .. } => 0,
    }
}

/// How many queues a server has; 0 past the last server.
pub fn queues(net: &Network, server: u32) -> u32
    ensures { result ≡ at.queues net.now server }
{
    let servers = net.servers();
    let place = server as usize;
    if place < servers.len() {
        servers[place].discipline.queue_count() as u32
    } else {
        0
    }
}

/// How many queues it has that are served by priority.
pub fn levels(net: &Network, server: u32) -> u32
    ensures { result ≡ at.levels net.now server }
{
    let servers = net.servers();
    let place = server as usize;
    if place < servers.len() {
        level_count(&servers[place].discipline)
    } else {
        0
    }
}
