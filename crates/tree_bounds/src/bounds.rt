//! How long a frame takes to the end of each branch.

ghost use Rattle.std.specs.Prelude.{◌≡◌, ◌<◌, ◌≤◌, ◌+◌, ◌*◌, ◌^◌, ℕ, length, IfOk, IfSome};
ghost use Rattle.std.specs.Option.{ForSome};
ghost use Rattle.tree_network.specs.Networks.{IsNetwork, IsLink, port_at, queues_of};
ghost use Rattle.tree_bounds.specs.Solved.{HasRows, HaveBounds};
ghost use Rattle.tree_bounds.specs.Tables.{AreBounds, items_of, row_at, time_after, time_before};

use arrival_lines::Queue;
use std::alloc::{AllocError, Global};
use tree_network::{Link, Network, Node};

/// What is promised of the queue of a node.
fn row_of(network: &Network, rows: &[Vec<Option<Queue>>], node: Node) -> Option<Queue>
    requires rows { HasRows network.now (items_of rows.now) }
    requires port { node.port < length network.now.ports.items }
    requires queue { node.queue < queues_of (port_at network.now node.port).discipline }
    ensures { result ≡ row_at (items_of rows.now) node.port node.queue }
{
    rows[node.port as usize][node.queue as usize]
}

/// The sum of a frame's delays and links to a node, where the one before takes so long.
fn bound_after(before: Option<u128>, row: Option<Queue>, link: u64) -> Option<u128>
    requires { IfSome before (λ b. b + 2 ^ 65 ≤ 2 ^ 128) }
    ensures sum { result ≡ time_after before row link }
    ensures small { (most : ℕ) → IfSome before (λ b. b ≤ most) → IfSome result (λ b. b ≤ most + 2 ^ 65) }
{
    match before {
        None => None,
        Some(before) => match row {
            None => None,
            Some(queue) => Some(before + queue.delay as u128 + link as u128),
        },
    }
}

/// The bound of the node before; 0 where frames begin.
fn bound_before(bounds: &[Option<u128>], from: Option<u16>) -> Option<u128>
    requires { ForSome from (λ place. place < length bounds.now) }
    ensures { result ≡ time_before bounds.now from }
{
    match from {
        None => Some(0),
        Some(from) => bounds[from as usize],
    }
}

/// How long a frame of the link takes at most from its entry to the end of the link behind each node.
fn link_bounds(
    alloc: Global,
    network: &Network,
    rows: &[Vec<Option<Queue>>],
    link: &Link,
) -> Result<Vec<Option<u128>>, AllocError>
    requires network { IsNetwork network.now }
    requires rows { HasRows network.now (items_of rows.now) }
    requires link { IsLink network.now link.now }
    ensures { IfOk result (λ v. AreBounds network.now (row_at (items_of rows.now)) link.now v.items) }
{
    let mut bounds = Vec::with_capacity(alloc, link.nodes.len())?;
    for node in &link.nodes {
        let before = bound_before(&bounds, node.from);
        let row = row_of(network, rows, *node);
        bounds.push(bound_after(before, row, network.ports[node.port as usize].link))?;
    }
    Ok(bounds)
}

/// The bounds of each link.
pub(crate) fn all_bounds(
    alloc: Global,
    network: &Network,
    rows: &[Vec<Option<Queue>>],
) -> Result<Vec<Vec<Option<u128>>>, AllocError>
    requires network { IsNetwork network.now }
    requires rows { HasRows network.now (items_of rows.now) }
    ensures { IfOk result (λ v. HaveBounds network.now (row_at (items_of rows.now)) (length network.now.links.items) (items_of v.items)) }
{
    let mut bounds = Vec::with_capacity(alloc, network.links.len())?;
    for link in &network.links {
        bounds.push(link_bounds(alloc, network, rows, link)?)?;
    }
    Ok(bounds)
}
