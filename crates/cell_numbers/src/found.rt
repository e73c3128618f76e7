//! Which hops are at a server, their longest packets, and the links of servers: nothing is stored.

ghost use Rattle.std.specs.Prelude.{◌≡◌, ◌≤◌, ℕ, length, max};
ghost use Rattle.net_cells.specs.Numbered as at;
ghost use Rattle.net_cells.specs.Visits as visiting;
ghost use Rattle.cell_numbers.specs.Chosen.{FindsOn, flow_visits, visit_list, picked, chosen, all_picked};
ghost use Rattle.cell_numbers.specs.Chosen as spec;

use fraction128::Frac;
use net_cells::{Visit, live_flow, part_of, queue_of_hop, server};
use net_model::Network;

/// Which hops at a server are meant: those in a queue, those in the queues of greater number, or those in one part of a
/// queue.
#[derive(Clone, Copy)]
pub enum Pick {
    InQueue(u32),
    AfterQueue(u32),
    InPart(u32, u64),
}

/// The bits of a flow's longest packet; 0 where it is not live.
pub fn packet(net: &Network, flow: u32) -> u32
    ensures { result ≡ at.packet net.now flow }
{
    match live_flow(net, flow) {
        Some(found) => found.packet,
        None => 0,
    }
}

/// How long a packet that leaves a server is on the way; 0 past the last server.
pub fn link(net: &Network, number: u32) -> Frac
    ensures { result ≡ at.link net.now number }
{
    match server(net, number) {
        Some(found) => found.link,
        None => Frac::zero(),
    }
}

/// The rate of a server; 0 past the last one.
pub fn rate(net: &Network, number: u32) -> Frac
    ensures { result ≡ at.rate net.now number }
{
    match server(net, number) {
        Some(found) => found.rate,
        None => Frac::zero(),
    }
}

// The first place of a server on a path.
fn place_on(path: &[u32], server: u32) -> Option<u32>
    requires { length path.now ≤ 16 }
    ensures { FindsOn path.now server result }
{
    for place in 0..path.len() {
        if path[place] == server {
            return Some(place as u32);
        }
    }
    None
}

/// The hop of a flow that is at a server: its path is there once at most.
pub fn hop_at(net: &Network, flow: u32, server: u32) -> Option<u32>
    ensures { flow_visits net.now server flow ≡ visit_list flow result }
{
    net.keeps();
    match live_flow(net, flow) {
        Some(found) => place_on(&found.path, server),
        None => None,
    }
}

fn picks(net: &Network, pick: Pick, flow: u32, hop: u32) -> bool
    ensures { result ≡ spec.picks net.now pick (visiting.visit flow hop) }
{
    match pick {
        Pick::InQueue(queue) => queue_of_hop(net, flow, hop) == queue,
        Pick::AfterQueue(queue) => queue < queue_of_hop(net, flow, hop),
        Pick::InPart(queue, part) => {
            queue_of_hop(net, flow, hop) == queue && part_of(net, Visit { flow, hop }) == part
        }
    }
}

/// The hop of a flow at a server that is meant.
pub fn picked_at(net: &Network, flow: u32, server: u32, pick: Pick) -> Option<u32>
    ensures { picked net.now server pick flow ≡ visit_list flow result }
{
    match hop_at(net, flow, server) {
        Some(hop) => {
            if picks(net, pick, flow, hop) {
                Some(hop)
            } else {
                None
            }
        }
        None => None,
    }
}

fn is_other(except: Option<u32>, flow: u32) -> bool
    ensures { (k : ℕ) → result ≡ spec.is_other except (visiting.visit flow k) }
{
    match except {
        Some(own) => flow != own,
        None => true,
    }
}

/// The same, where the flow is not the one that is left out.
pub fn chosen_at(
    net: &Network,
    flow: u32,
    server: u32,
    pick: Pick,
    except: Option<u32>,
) -> Option<u32>
    ensures { chosen net.now server pick except flow ≡ visit_list flow result }
{
    match picked_at(net, flow, server, pick) {
        Some(hop) => {
            if is_other(except, flow) {
                Some(hop)
            } else {
                None
            }
        }
        None => None,
    }
}

// The longest packet so far, with that of a flow where it is meant.
fn longer(net: &Network, server: u32, pick: Pick, flow: u32, most: u32) -> u32
    ensures { result ≡ max most (visiting.longest_of net.now (picked net.now server pick flow)) }
{
    match picked_at(net, flow, server, pick) {
        Some(_) => most.max(packet(net, flow)),
        None => most,
    }
}

/// The bits of the longest packet of the flows whose hops are meant.
pub fn longest_at(net: &Network, server: u32, pick: Pick) -> u32
    ensures { result ≡ visiting.longest_of net.now (all_picked net.now server pick (length net.now.flows)) }
{
    let count = net.flows().len() as u32;
    let mut most = 0;
    for flow in 0..count {
        most = longer(net, server, pick, flow, most);
    }
    most
}
