//! The table of a network.

ghost use Rattle.std.specs.Prelude.{◌≡◌, ◌<◌, ◌+◌, length, IfOk, IfErr};
ghost use Rattle.tree_network.specs.Networks.{IsNetwork, port_at};
ghost use Rattle.tree_network.specs.Lists.{lists_of, those, is_from, AreBySource};
ghost use Rattle.tree_network.specs.Plans.{IsPlanOf, IsFault};
ghost use Rattle.tree_bounds.specs.Bunches.{AreRowsOf};
ghost use Rattle.tree_bounds.specs.Equations.{comes_to};
ghost use Rattle.tree_bounds.specs.Onward.{stair_in, ArePassedOn, CanBePassedOn};
ghost use Rattle.tree_bounds.specs.Solved.{AreAllStairs, AreSolved};
ghost use Rattle.tree_bounds.specs.Tables.{IsTableOf, items_of};

use crate::arriving::all_arrivals;
use crate::bounds::all_bounds;
use crate::onward::{first_stairs, pass_on};
use arrival_lines::Queue;
use arrival_stairs::Stair;
use port_bounds::stair_rows;
use std::alloc::{AllocError, Global};
use tree_network::{Fault, Network, Plan, plan_of};

/// What is promised in a network; none where nothing is.
#[derive(Drop)]
pub struct Table {
    /// Of each queue, by port.
    pub rows: Vec<Vec<Option<Queue>>>,
    /// Of each node, by link: how long a frame takes at most from its entry to the end of the link behind the node's port, in
    /// picoseconds.
    pub bounds: Vec<Vec<Option<u128>>>,
}

/// So many empty lists of rows.
fn empty_rows(alloc: Global, count: usize) -> Result<Vec<Vec<Option<Queue>>>, AllocError>
    ensures { IfOk result (λ v. length v.items ≡ count) }
{
    let mut rows = Vec::with_capacity(alloc, count)?;
    for _port in 0..count {
        rows.push(Vec::new(alloc))?;
    }
    Ok(rows)
}

/// What is promised of each queue of a port, where these stairs come to its spots.
fn rows_at(
    alloc: Global,
    network: &Network,
    plan: &Plan,
    stairs: &[Option<Stair>],
    port: usize,
) -> Result<Vec<Option<Queue>>, AllocError>
    requires network { IsNetwork network.now }
    requires plan { IsPlanOf network.now plan.now }
    requires stairs { length stairs.now ≡ length plan.now.spots.items }
    requires range { AreAllStairs stairs.now }
    requires port { port < length network.now.ports.items }
    ensures { IfOk result (λ v. AreRowsOf (port_at network.now port) (comes_to network.now (λ n. stair_in stairs.now n) port) v.items) }
{
    let at = &network.ports[port];
    let count = at.discipline.queue_count();
    let queues = all_arrivals(alloc, network, plan, stairs, port, count)?;
    stair_rows(alloc, at, &queues.stairs, &queues.lines)
}

/// Notes the stairs with which links come from a port with these rows to the next ones.
fn hand_on(plan: &Plan, port: usize, rows: &[Option<Queue>], stairs: &mut Vec<Option<Stair>>)
    requires inside { port + 1 < length plan.now.sources.items }
    requires sources { AreBySource plan.now.spots.items (length plan.now.sources.items) (lists_of plan.now.sources.items) }
    requires can { let spots = plan.now.spots.items in
        CanBePassedOn spots (those (is_from spots (port + 1)) (length spots)) (length rows.now) (length stairs.old.items) }
    ensures { let spots = plan.now.spots.items in let numbers = those (is_from spots (port + 1)) (length spots) in
        ArePassedOn spots numbers rows.now (length numbers) stairs.old.items stairs.new.items }
{
    pass_on(&plan.spots, &plan.sources[port + 1], rows, stairs);
}

/// The rows of each port, by the plan.
fn rows_in_order(
    alloc: Global,
    network: &Network,
    plan: &Plan,
) -> Result<Vec<Vec<Option<Queue>>>, AllocError>
    requires network { IsNetwork network.now }
    requires plan { IsPlanOf network.now plan.now }
    ensures { IfOk result (λ v. AreSolved network.now (items_of v.items)) }
{
    let mut stairs = first_stairs(alloc, network, &plan.spots)?;
    let mut rows = empty_rows(alloc, network.ports.len())?;
    for port in &plan.order {
        let known = stairs.as_slice();
        let found = rows_at(alloc, network, plan, known, *port)?;
        let these = found.as_slice();
        hand_on(plan, *port, these, &mut stairs);
        rows[*port] = found;
    }
    Ok(rows)
}

/// The table of a network: each queue's delay and backlog, and each branch's bound, by the equations. A ring of ports where it has one.
/// In proportion to the nodes of all links, to those at each port times its queues, to sorting the ports from which they come and the turns
/// of each queue (two at most a jump that counts, 4,096 at most, and two a part), and to its steps, turns and services with their logarithms.
pub fn bounds_of(alloc: Global, network: &Network) -> Result<Table, Fault>
    requires { IsNetwork network.now }
    ensures table { IfOk result (IsTableOf network.now) }
    ensures fault { IfErr result (IsFault network.now) }
{
    let plan = plan_of(alloc, network)?;
    let rows = rows_in_order(alloc, network, &plan)?;
    // The bounds are as large, and then take its room.
    drop(plan);
    let bounds = all_bounds(alloc, network, &rows)?;
    Ok(Table { rows, bounds })
}
