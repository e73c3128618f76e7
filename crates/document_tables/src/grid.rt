//! Tables on the grid of networks.

ghost use Rattle.std.specs.Prelude.{◌≡◌, ◌≤◌, ◌<◌, ◌^◌, ℕ, List, Some, All, map, length, slice_get, IfOk, IfSome};
ghost use Rattle.document_rows.specs.Disciplines.{discipline_view};
ghost use Rattle.document_rows.specs.PortRows.{port_view};
ghost use Rattle.document_tables.specs.Grids as spec;
ghost use Rattle.document_tables.specs.Links.{BranchText};
ghost use Rattle.document_tables.specs.LinkTrees.{AreTreesOf};
ghost use Rattle.document_tables.specs.Ports.{ports_view};
ghost use Rattle.document_tables.specs.Ranges.{IsGate, IsPortText, AreLinkKeys};
ghost use Rattle.document_tables.specs.Short.{IsShort, HasShortNodes, HaveShortNodes};
ghost use Rattle.document_tables.specs.Stops.{Stop};

use crate::links::LinkKeys;
use crate::paths::queue_at;
use crate::ports::PortTable;
use crate::trees::Tree;
use document_rows::{GateRow, PortRow, frame_on_wire};
use std::alloc::{AllocError, Global};
use std::mem::replace;
use tree_network::{Discipline, Gate, Link, Node, Port};

const PICOSECONDS_IN_A_MICROSECOND: u64 = 1_000_000;

const PICOSECONDS_IN_A_MILLISECOND: u64 = 1_000_000_000;

const GRAINS_A_SECOND_IN_A_MEGABIT: u64 = 1_024_000_000;

// A gate on the grid: open for no longer, and no more often.
fn gate_of(gate: GateRow) -> Gate
    requires { IsGate gate }
    ensures { result ≡ spec.gate_on_grid gate }
{
    Gate {
        cycle: gate.cycle.rounded_up(PICOSECONDS_IN_A_MICROSECOND),
        slot: gate.slot.rounded_down(PICOSECONDS_IN_A_MICROSECOND),
    }
}

// The same discipline once more.
fn discipline_of(discipline: &Discipline) -> Result<Discipline, AllocError>
    ensures { IfOk result (λ d. discipline_view d ≡ discipline_view discipline.now) }
{
    match discipline {
        Discipline::Fifo => Ok(Discipline::Fifo),
        Discipline::Priority(queues) => Ok(Discipline::Priority(*queues)),
        Discipline::Drr(quanta) => Ok(Discipline::Drr(quanta.clone()?)),
    }
}

// A port on the grid: what it does rounded down, how long it takes rounded up.
fn port_of(row: &PortRow) -> Result<Port, AllocError>
    requires { IsPortText (port_view row.now) }
    ensures { IfOk result (λ port. spec.grid_port port ≡ spec.port_on_grid (port_view row.now)) }
{
    let gate = match row.gate {
        Some(gate) => Some(gate_of(gate)),
        None => None,
    };
    Ok(Port {
        rate: row.rate.rounded_down(GRAINS_A_SECOND_IN_A_MEGABIT),
        pace: row.rate.rounded_up(GRAINS_A_SECOND_IN_A_MEGABIT),
        latency: row.latency.rounded_up(PICOSECONDS_IN_A_MICROSECOND),
        link: row.link.rounded_up(PICOSECONDS_IN_A_MICROSECOND),
        discipline: discipline_of(&row.discipline)?,
        gate,
    })
}

/// The ports on the grid.
pub(crate) fn ports_on_grid(alloc: Global, rows: &[PortRow]) -> Result<Vec<Port>, AllocError>
    requires { All IsPortText (map port_view rows.now) }
    ensures { IfOk result (λ ports. map spec.grid_port ports.items ≡ map spec.port_on_grid (map port_view rows.now)) }
{
    let mut ports = Vec::with_capacity(alloc, rows.len())?;
    for place in 0..rows.len() {
        ports.push(port_of(&rows[place])?)?;
    }
    Ok(ports)
}

// The queue of a priority at the port of a number.
fn queue_of(ports: &PortTable, port: usize, priority: usize) -> usize
    ensures { result ≡ spec.queue_of (slice_get (ports_view ports.now).ports port) priority }
{
    match ports.ports.get(port) {
        Some(row) => queue_at(&row.discipline, priority),
        None => 0,
    }
}

// A place that is short.
fn short(place: Option<usize>) -> Option<u16>
    requires { IfSome place (λ p. p < 2 ^ 16) }
    ensures { result ≡ place }
{
    match place {
        Some(place) => Some(place as u16),
        None => None,
    }
}

// The node of a port of a tree, and of the one after which it comes.
fn node_of(
    ports: &PortTable,
    priority: usize,
    tree: &Tree,
    port: usize,
    after: Option<usize>,
) -> Node
    requires { IsShort (spec.node_of (ports_view ports.now).ports priority tree.now.stops (port, after)) }
    ensures { result ≡ spec.node_of (ports_view ports.now).ports priority tree.now.stops (port, after) }
{
    let queue = queue_of(ports, port, priority);
    let from = tree.place_after(after);
    Node {
        port: port as u16,
        queue: queue as u8,
        from: short(from),
    }
}

// The nodes of a tree, each with its queue.
fn nodes_of(
    alloc: Global,
    ports: &PortTable,
    priority: usize,
    tree: &Tree,
) -> Result<Vec<Node>, AllocError>
    requires { HasShortNodes (ports_view ports.now).ports priority tree.now.stops }
    ensures { IfOk result (λ nodes. nodes.items
        ≡ spec.nodes_of (ports_view ports.now).ports priority tree.now.stops) }
{
    let mut nodes = Vec::with_capacity(alloc, tree.len())?;
    for place in 0..tree.len() {
        let (port, after) = tree.stop(place);
        nodes.push(node_of(ports, priority, tree, port, after))?;
    }
    Ok(nodes)
}

// A link on the grid: what may come rounded up.
fn link_of(
    alloc: Global,
    ports: &PortTable,
    overhead: u64,
    keys: LinkKeys,
    tree: &Tree,
) -> Result<Link, AllocError>
    requires overhead { overhead ≤ 1048576 }
    requires keys { AreLinkKeys keys }
    requires short { HasShortNodes (ports_view ports.now).ports keys.priority tree.now.stops }
    ensures { IfOk result (λ link. spec.grid_link link
        ≡ spec.link_on_grid (ports_view ports.now).ports overhead keys tree.now.stops) }
{
    Ok(Link {
        frame: frame_on_wire(keys.largest_frame, overhead),
        gap: keys.gap.rounded_down(PICOSECONDS_IN_A_MILLISECOND),
        jitter: keys.jitter.rounded_up(PICOSECONDS_IN_A_MICROSECOND),
        nodes: nodes_of(alloc, ports, keys.priority as usize, tree)?,
    })
}

// Takes the tree of a link.
fn take_tree(alloc: Global, trees: &mut Vec<Tree>, number: usize) -> Tree
    requires { number < length trees.old.items }
    ensures tree { slice_get trees.old.items number ≡ Some result }
    ensures count { length trees.new.items ≡ length trees.old.items }
    ensures later { (k : ℕ) → number < k → slice_get trees.new.items k ≡ slice_get trees.old.items k }
{
    replace(&mut trees[number], Tree::new(alloc))
}

/// The links on the grid. Each tree is let go as soon as the nodes of its link are made: those of the next link take its room.
pub(crate) fn links_on_grid(
    alloc: Global,
    ports: &PortTable,
    overhead: u64,
    keys: &[LinkKeys],
    trees: &mut Vec<Tree>,
) -> Result<Vec<Link>, AllocError>
    requires overhead { overhead ≤ 1048576 }
    requires keys { All AreLinkKeys keys.now }
    requires count { length trees.old.items ≡ length keys.now }
    requires short { HaveShortNodes (ports_view ports.now).ports keys.now trees.old.items }
    ensures { (branches : List BranchText) → AreTreesOf branches trees.old.items → IfOk result (λ links.
        map spec.grid_link links.items ≡ spec.links_from (ports_view ports.now).ports overhead branches 0 keys.now) }
{
    let mut links = Vec::with_capacity(alloc, keys.len())?;
    for number in 0..keys.len() {
        let tree = take_tree(alloc, trees, number);
        links.push(link_of(alloc, ports, overhead, keys[number], &tree)?)?;
    }
    Ok(links)
}
