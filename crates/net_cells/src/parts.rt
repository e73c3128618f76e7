//! The parts of a queue: the hops with which paths begin there, and those that come from each server before.

ghost use Rattle.std.specs.Prelude.{◌≡◌, ◌≤◌, ◌++◌, map, length, ◌==◌, IfOk, OnOk};
ghost use Rattle.std.specs.List.{filter, flat_map};
ghost use Rattle.net_cells.specs.declared.cell.Kind.TheVariants.{In};
ghost use Rattle.net_cells.specs.Visits.{visit};
ghost use Rattle.net_cells.specs.QueueParts as parts;
ghost use Rattle.net_cells.specs.Order.{at_visit};
ghost use Rattle.net_cells.specs.Work as spec;

use crate::cell::{Cell, Kind};
use crate::numbered::{hops, queue_of_hop, server_of_hop};
use crate::visit::Visit;
use net_model::Network;
use std::alloc::{AllocError, Global};

/// The part of its queue in which a hop is: 0 where its path begins there, else one more than the number of the server
/// before.
pub fn part_of(net: &Network, v: Visit) -> u64
    ensures { result ≡ parts.part_of net.now v }
{
    if v.hop == 0 {
        0
    } else {
        u64::from(server_of_hop(net, v.flow, v.hop - 1)) + 1
    }
}

// The cells with which the hops of a part come.
fn push_part(
    cells: &mut Vec<Cell>,
    net: &Network,
    here: &[Visit],
    part: u64,
) -> Result<(), AllocError>
    ensures { OnOk result (cells.new.items ≡ cells.old.items
        ++ map (at_visit In) (filter (λ v. parts.part_of net.now v == part) here.now)) }
{
    for v in here {
        if part_of(net, *v) == part {
            cells.push(Cell {
                kind: Kind::In,
                a: v.flow,
                b: v.hop,
            })?;
        }
    }
    Ok(())
}

/// The cells with which hops of a queue come, part by part.
pub(crate) fn by_parts(
    alloc: Global,
    net: &Network,
    here: &[Visit],
) -> Result<Vec<Cell>, AllocError>
    ensures { IfOk result (λ v. v.items ≡ map (at_visit In)
        (flat_map (λ k. filter (λ x. parts.part_of net.now x == k) here.now) (parts.part_numbers net.now))) }
{
    let count = net.servers().len() as u64 + 1;
    let mut cells = Vec::new(alloc);
    for part in 0..count {
        push_part(&mut cells, net, here, part)?;
    }
    Ok(cells)
}

// ---- how many there are
fn is_there(net: &Network, v: Visit, place: (u32, u32), part: u64) -> bool
    ensures { result ≡ parts.is_there net.now place.0 place.1 part v }
{
    server_of_hop(net, v.flow, v.hop) == place.0
        && queue_of_hop(net, v.flow, v.hop) == place.1
        && part_of(net, v) == part
}

// Hops of a flow in a part of a queue.
fn count_flow(net: &Network, flow: u32, place: (u32, u32), part: u64) -> u32
    ensures count { result ≡ length (parts.flow_part net.now place.0 place.1 part flow) }
    ensures few { result ≤ 16 }
{
    let mut count = 0;
    for hop in 0..hops(net, flow) {
        if is_there(net, Visit { flow, hop }, place, part) {
            count += 1;
        }
    }
    count
}

// Hops of all flows in a part of a queue.
fn count_part(net: &Network, place: (u32, u32), part: u64) -> u32
    ensures count { result ≡ length (parts.in_part net.now place.0 place.1 part) }
    ensures few { result ≤ 4096 }
{
    let flows = net.flows();
    let mut total = 0;
    for flow in 0..flows.len() {
        total += count_flow(net, flow as u32, place, part);
    }
    total
}

// A part over a link that has some hops.
fn link_of(part: u64, hops: u32) -> u32
    ensures link { result ≡ parts.link_of part hops }
    ensures few { result ≤ 1 }
{
    if part == 0 {
        0
    } else if hops == 0 {
        0
    } else {
        1
    }
}

/// How many operators the sum of a queue's parts takes: as many as the sum of its hops, and one more for each part that
/// comes over a link.
pub(crate) fn parts_work(net: &Network, server: u32, queue: u32) -> u32
    ensures { result ≡ spec.parts_work net.now server queue }
{
    let count = net.servers().len() as u64 + 1;
    let mut terms = 0;
    let mut links = 0;
    for part in 0..count {
        let more = count_part(net, (server, queue), part);
        terms += more;
        links += link_of(part, more);
    }
    if terms == 0 { links } else { terms - 1 + links }
}
