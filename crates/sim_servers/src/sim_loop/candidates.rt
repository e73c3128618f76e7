//! What is due, and what of it comes first.

ghost use Rattle.std.specs.Prelude.{◌≡◌, ◌<◌, ◌≤◌, ◌^◌, length, map, slice_get};
ghost use Rattle.queue_sched.specs.index_links.Chains.{list_at, first_of as head_of_list};
ghost use Rattle.net_model.specs.stated_runs.Setups.{Setup};
ghost use Rattle.net_model.specs.stated_runs.FromTraces.{entering};
ghost use Rattle.sim_servers.specs.sim_states.Running.{enter_first, reach_first, IsFirstCandidate};

use crate::sim_states::Arrival;
use crate::{Due, DueKind, Station, due_of, keep_first};
use net_model::TracePacket;
use queue_sched::index_links::Links;

/// The next packet of the trace.
fn next_enter(packets: &[TracePacket], entered: u32) -> Option<Due>
    ensures { result ≡ enter_first (slice_get (map entering packets.now) entered) entered }
{
    match packets.get(entered as usize) {
        Some(packet) => Some(Due {
            time: packet.time,
            kind: DueKind::Enter,
            server: 0,
            packet: entered,
        }),
        None => None,
    }
}

/// The first packet on the link of a server.
fn next_reach(links: &Links, arrivals: &[Arrival], link: u32) -> Option<Due>
    requires list { link < length links.now.lists }
    requires long { links.now.nodes ≡ length arrivals.now }
    ensures { result ≡ reach_first arrivals.now (head_of_list (list_at links.now link)) }
{
    links.are_disjoint();
    match links.first(link) {
        Some(packet) => Some(Due {
            time: arrivals[packet as usize].time,
            kind: DueKind::Reach,
            server: arrivals[packet as usize].server,
            packet,
        }),
        None => None,
    }
}

/// The first of all that is due: of one step a server, the first packet of each link, and the next packet of the trace.
pub fn first_due(
    packets: &[TracePacket],
    stations: &[Station],
    links: &Links,
    arrivals: &[Arrival],
    entered: u32,
) -> Option<Due>
    requires lists { length links.now.lists ≡ length stations.now }
    requires long { links.now.nodes ≡ length arrivals.now }
    requires few { length stations.now < 2 ^ 32 }
    ensures { (S : Setup) → S.packets ≡ map entering packets.now
        → IsFirstCandidate S stations.now links.now arrivals.now entered (length stations.now) result }
{
    let mut first = next_enter(packets, entered);
    for (server, station) in stations.iter().enumerate() {
        keep_first(&mut first, due_of(&station.next, server as u32));
        keep_first(&mut first, next_reach(links, arrivals, server as u32));
    }
    first
}
