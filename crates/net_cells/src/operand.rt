//! What a cell is made of.

ghost use Rattle.std.specs.Prelude.{◌≡◌, [], ◌∷◌, map, not, ◌==◌, IfOk};
ghost use Rattle.std.specs.List.{filter, range_with_len};
ghost use Rattle.net_model.specs.Networks.{Net};
ghost use Rattle.net_cells.specs.declared.cell.Kind.TheVariants.{In, Cross, Total, QueueService, Theta, Residual, HopDelay, PathService};
ghost use Rattle.net_cells.specs.Numbered as at;
ghost use Rattle.net_cells.specs.Visits as visiting;
ghost use Rattle.net_cells.specs.Cells.{cell_of};
ghost use Rattle.net_cells.specs.Order.{at_visit};
ghost use Rattle.net_cells.specs.Formulas.{leaves};
ghost use Rattle.net_cells.specs.CellFormulas.{formula, formula_of};

use crate::cell::{Cell, Kind};
use crate::numbered::{hops, is_by_priority, queue_of_hop, server_of_hop};
use crate::order::{push_numbers, push_visits};
use crate::parts::by_parts;
use crate::visit::{Visit, visits};
use net_model::Network;
use std::alloc::{AllocError, Global};

// ---- the hops in a queue
fn only_in(
    alloc: Global,
    net: &Network,
    here: &[Visit],
    queue: u32,
) -> Result<Vec<Visit>, AllocError>
    ensures { IfOk result (λ v. v.items ≡ filter (λ x. at.queue_of_hop net.now x.flow x.hop == queue) here.now) }
{
    let mut found = Vec::new(alloc);
    for v in here {
        if queue_of_hop(net, v.flow, v.hop) == queue {
            found.push(*v)?;
        }
    }
    Ok(found)
}

/// The hops in a queue, by flow. Looks at each hop of the network once.
pub fn visits_in(
    alloc: Global,
    net: &Network,
    server: u32,
    queue: u32,
) -> Result<Vec<Visit>, AllocError>
    ensures { IfOk result (λ v. v.items ≡ visiting.visits_in net.now server queue) }
{
    let here = visits(alloc, net, server)?;
    only_in(alloc, net, &here, queue)
}

fn without(alloc: Global, here: &[Visit], flow: u32) -> Result<Vec<Visit>, AllocError>
    ensures { IfOk result (λ v. v.items ≡ filter (λ x. not (x.flow == flow)) here.now) }
{
    let mut found = Vec::new(alloc);
    for v in here {
        if v.flow != flow {
            found.push(*v)?;
        }
    }
    Ok(found)
}

// ---- lists of cells
fn of_visits(alloc: Global, here: &[Visit]) -> Result<Vec<Cell>, AllocError>
    ensures { IfOk result (λ v. v.items ≡ map (at_visit In) here.now) }
{
    let mut cells = Vec::new(alloc);
    push_visits(&mut cells, Kind::In, here)?;
    Ok(cells)
}

fn of_numbers(alloc: Global, kind: Kind, a: u32, count: u32) -> Result<Vec<Cell>, AllocError>
    ensures { IfOk result (λ v. v.items ≡ map (cell_of kind a) (range_with_len 0 count)) }
{
    let mut cells = Vec::new(alloc);
    push_numbers(&mut cells, kind, a, count)?;
    Ok(cells)
}

// Of the same hop or queue.
fn same(kind: Kind, cell: Cell) -> Cell
    ensures { result ≡ cell_of kind cell.a cell.b }
{
    Cell {
        kind,
        a: cell.a,
        b: cell.b,
    }
}

// Of the queue of a hop.
fn of_queue(kind: Kind, net: &Network, cell: Cell) -> Cell
    ensures { result ≡ cell_of kind (at.server_of_hop net.now cell.a cell.b) (at.queue_of_hop net.now cell.a cell.b) }
{
    Cell {
        kind,
        a: server_of_hop(net, cell.a, cell.b),
        b: queue_of_hop(net, cell.a, cell.b),
    }
}

// Of two kinds.
fn both(alloc: Global, x: Kind, y: Kind, a: u32, b: u32) -> Result<Vec<Cell>, AllocError>
    ensures { IfOk result (λ v. v.items ≡ cell_of x a b ∷ cell_of y a b ∷ []) }
{
    Vec::from_slice(alloc, &[Cell { kind: x, a, b }, Cell { kind: y, a, b }])
}

// ---- kinds whose operands are not as many at each cell
fn arriving(alloc: Global, cell: Cell) -> Result<Vec<Cell>, AllocError>
    ensures { IfOk result (λ v. (net : Net) → v.items ≡ leaves (formula_of net In cell.a cell.b)) }
{
    if cell.b == 0 {
        Ok(Vec::new(alloc))
    } else {
        let before = Cell {
            kind: Kind::Out,
            a: cell.a,
            b: cell.b - 1,
        };
        Vec::from_slice(alloc, &[before])
    }
}

fn cross(alloc: Global, net: &Network, cell: Cell) -> Result<Vec<Cell>, AllocError>
    ensures { IfOk result (λ v. v.items ≡ leaves (formula_of net.now Cross cell.a cell.b)) }
{
    let server = server_of_hop(net, cell.a, cell.b);
    let here = visits_in(alloc, net, server, queue_of_hop(net, cell.a, cell.b))?;
    let others = without(alloc, &here, cell.a)?;
    of_visits(alloc, &others)
}

fn total(alloc: Global, net: &Network, cell: Cell) -> Result<Vec<Cell>, AllocError>
    ensures { IfOk result (λ v. v.items ≡ leaves (formula_of net.now Total cell.a cell.b)) }
{
    let here = visits_in(alloc, net, cell.a, cell.b)?;
    if net.version() == 2 {
        by_parts(alloc, net, &here)
    } else {
        of_visits(alloc, &here)
    }
}

// Higher queues are looked at by priority alone.
fn service(alloc: Global, net: &Network, cell: Cell) -> Result<Vec<Cell>, AllocError>
    ensures { IfOk result (λ v. v.items ≡ leaves (formula_of net.now QueueService cell.a cell.b)) }
{
    if is_by_priority(net, cell.a) {
        Vec::from_slice(alloc, &[same(Kind::Higher, cell)])
    } else {
        Ok(Vec::new(alloc))
    }
}

// A path has a hop at least.
fn along(alloc: Global, net: &Network, cell: Cell) -> Result<Vec<Cell>, AllocError>
    ensures { IfOk result (λ v. v.items ≡ leaves (formula_of net.now PathService cell.a cell.b)) }
{
    let count = hops(net, cell.a);
    let most = if count == 0 { 1 } else { count };
    of_numbers(alloc, Kind::Residual, cell.a, most)
}

fn theta(alloc: Global, net: &Network, cell: Cell) -> Result<Vec<Cell>, AllocError>
    ensures { IfOk result (λ v. v.items ≡ leaves (formula_of net.now Theta cell.a cell.b)) }
{
    let service = of_queue(Kind::QueueService, net, cell);
    Vec::from_slice(alloc, &[same(Kind::Cross, cell), service])
}

fn residual(alloc: Global, net: &Network, cell: Cell) -> Result<Vec<Cell>, AllocError>
    ensures { IfOk result (λ v. v.items ≡ leaves (formula_of net.now Residual cell.a cell.b)) }
{
    let service = of_queue(Kind::QueueService, net, cell);
    Vec::from_slice(
        alloc,
        &[service, same(Kind::Cross, cell), same(Kind::Theta, cell)],
    )
}

fn hop_delay(alloc: Global, net: &Network, cell: Cell) -> Result<Vec<Cell>, AllocError>
    ensures { IfOk result (λ v. v.items ≡ leaves (formula_of net.now HopDelay cell.a cell.b)) }
{
    let delay = of_queue(Kind::QueueDelay, net, cell);
    Vec::from_slice(
        alloc,
        &[delay, same(Kind::In, cell), same(Kind::Residual, cell)],
    )
}

/// The cells that a cell is made of, in the order in which its formula names them. In a network with an
/// order these are cells of it where the cell is one.
pub fn operands(alloc: Global, cell: Cell, net: &Network) -> Result<Vec<Cell>, AllocError>
    ensures { IfOk result (λ v. v.items ≡ leaves (formula net.now cell)) }
{
    match cell.kind {
        Kind::In => arriving(alloc, cell),
        Kind::Cross => cross(alloc, net, cell),
        Kind::Total => total(alloc, net, cell),
        Kind::Higher => of_numbers(alloc, Kind::Total, cell.a, cell.b),
        Kind::QueueService => service(alloc, net, cell),
        Kind::Theta => theta(alloc, net, cell),
        Kind::Residual => residual(alloc, net, cell),
        Kind::QueueDelay => both(alloc, Kind::Total, Kind::QueueService, cell.a, cell.b),
        Kind::QueueBacklog => both(alloc, Kind::Total, Kind::QueueService, cell.a, cell.b),
        Kind::HopDelay => hop_delay(alloc, net, cell),
        Kind::ShiftOut => both(alloc, Kind::In, Kind::HopDelay, cell.a, cell.b),
        Kind::DeconvOut => both(alloc, Kind::In, Kind::Residual, cell.a, cell.b),
        Kind::Out => both(alloc, Kind::ShiftOut, Kind::DeconvOut, cell.a, cell.b),
        Kind::PathService => along(alloc, net, cell),
        Kind::Tfa => of_numbers(alloc, Kind::HopDelay, cell.a, hops(net, cell.a)),
        Kind::Sfa => both(alloc, Kind::In, Kind::PathService, cell.a, 0),
        Kind::Bound => both(alloc, Kind::Tfa, Kind::Sfa, cell.a, 0),
    }
}
