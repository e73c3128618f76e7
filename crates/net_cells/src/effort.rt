//! How many operators on curves a cell takes.

ghost use Rattle.std.specs.Prelude.{◌≡◌, ◌≤◌, ◌-◌, ◌*◌, ℕ, length, slice_index, ◌==◌, ◌&&◌};
ghost use Rattle.std.specs.List.{filter};
ghost use Rattle.net_cells.specs.declared.cell.Kind.TheVariants.{Cross, Total, QueueService};
ghost use Rattle.net_cells.specs.Numbered as at;
ghost use Rattle.net_cells.specs.Visits.{hops_in, visits_in};
ghost use Rattle.net_cells.specs.Work as spec;

use crate::cell::{Cell, Kind};
use crate::numbered::{hops, live_flow, number_at, queue_of_hop, server, server_of_hop};
use crate::parts::parts_work;
use net_model::{Discipline, Flow, Network};

// ---- hops in a queue
fn is_in(path: &[u32], lanes: &[u32], hop: u32, server: u32, queue: u32) -> bool
    ensures { result ≡ ((slice_index path.now hop == server) && (slice_index lanes.now hop == queue)) }
{
    number_at(path, hop) == server && number_at(lanes, hop) == queue
}

// How many there are of one path with its queues.
fn count_hops(path: &[u32], lanes: &[u32], server: u32, queue: u32) -> u32
    requires { length path.now ≤ 16 }
    ensures count { (i : ℕ) → result ≡ length (hops_in i path.now lanes.now server queue) }
    ensures few { result ≤ 16 }
{
    let mut count = 0;
    for hop in 0..path.len() {
        if is_in(path, lanes, hop as u32, server, queue) {
            count += 1;
        }
    }
    count
}

// Of a flow, where it is live.
fn count_flow(flow: &Option<Flow>, server: u32, queue: u32) -> u32
    requires { length (at.stored_path flow.now) ≤ 16 }
    ensures count { (i : ℕ) → result ≡ length
        (hops_in i (at.stored_path flow.now) (at.stored_queues flow.now) server queue) }
    ensures few { result ≤ 16 }
{
    match flow {
        Some(flow) => count_hops(&flow.path, &flow.queues, server, queue),
        None => 0,
    }
}

// Of all flows.
fn count_in(net: &Network, server: u32, queue: u32) -> u32
    ensures { result ≡ length (visits_in net.now server queue) }
{
    let flows = net.flows();
    let mut total = 0;
    for number in 0..flows.len() {
        let more = count_flow(&flows[number], server, queue);
        total += more;
    }
    total
}

// Of one flow among them.
fn count_own(net: &Network, flow: u32, server: u32, queue: u32) -> u32
    ensures { result ≡ length (filter (λ v. v.flow == flow) (visits_in net.now server queue)) }
{
    match live_flow(net, flow) {
        Some(found) => count_hops(&found.path, &found.queues, server, queue),
        None => 0,
    }
}

// ---- the work of some kinds
// A sum takes one operator less than it has terms.
fn for_terms(terms: u32) -> u32
    ensures { result ≡ terms - 1 }
{
    if terms == 0 { 0 } else { terms - 1 }
}

fn for_total(net: &Network, cell: Cell) -> u32
    ensures { result ≡ spec.kind_work net.now Total cell.a cell.b }
{
    if net.version() == 2 {
        parts_work(net, cell.a, cell.b)
    } else {
        for_terms(count_in(net, cell.a, cell.b))
    }
}

fn for_cross(net: &Network, cell: Cell) -> u32
    ensures { result ≡ spec.kind_work net.now Cross cell.a cell.b }
{
    let at_server = server_of_hop(net, cell.a, cell.b);
    let queue = queue_of_hop(net, cell.a, cell.b);
    let own = count_own(net, cell.a, at_server, queue);
    for_terms(count_in(net, at_server, queue) - own)
}

fn for_service(net: &Network, cell: Cell) -> u32
    ensures { result ≡ spec.kind_work net.now QueueService cell.a cell.b }
{
    match server(net, cell.a) {
        Some(found) => match &found.discipline {
            Discipline::Fifo => 0,
            Discipline::Priority { .. } => 3,
            Discipline::Drr { .. } => 2,
        },
        None => 3,
    }
}

/// How many operators on curves a cell takes: the terms of a sum less one, and in version 2 one more for each server from
/// which flows come to a queue; 3 for a priority queue's service and 2 for a
/// deficit round robin queue's; 2 for each hop of a path but the last; 2 for a backlog and for an output by its
/// service; 1 for the others that compute; 0 where a value is handed on, or numbers alone are computed with. It takes
/// no memory.
pub fn work(cell: Cell, net: &Network) -> u32
    ensures { result ≡ spec.work net.now cell }
{
    match cell.kind {
        Kind::In | Kind::Tfa | Kind::Bound => 0,
        Kind::Cross => for_cross(net, cell),
        Kind::Total => for_total(net, cell),
        Kind::Higher => for_terms(cell.b),
        Kind::QueueService => for_service(net, cell),
        Kind::Theta | Kind::Residual | Kind::QueueDelay | Kind::HopDelay => 1,
        Kind::ShiftOut | Kind::Out | Kind::Sfa => 1,
        Kind::QueueBacklog | Kind::DeconvOut => 2,
        Kind::PathService => 2 * for_terms(hops(net, cell.a)),
    }
}
