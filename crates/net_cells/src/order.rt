//! The cells of a network, in the order in which they are taken.

ghost use Rattle.std.specs.Prelude.{◌≡◌, ◌++◌, map, IfOk, OnOk};
ghost use Rattle.std.specs.List.{filter, flat_map, range_with_len};
ghost use Rattle.net_cells.specs.Visits as visiting;
ghost use Rattle.net_cells.specs.Cells.{cell_of, scope_of, path_kinds};
ghost use Rattle.net_cells.specs.Order.{at_visit, kind_cells, server_cells, path_cells, evaluation_order};

use crate::cell::{Cell, Kind, PATH_KINDS, SERVER_KINDS, Scope};
use crate::numbered::{hops, levels, queues};
use crate::visit::{Visit, visits};
use net_model::Network;
use std::alloc::{AllocError, Global};

impl Kind {
    ghost use Rattle.std.specs.Prelude.{◌≡◌};
    ghost use Rattle.net_cells.specs.Cells.{scope_of};

    /// What the kind has cells for.
    pub fn scope(self) -> Scope
        ensures { result ≡ scope_of self }
    {
        match self {
            Kind::In | Kind::Cross | Kind::Theta | Kind::Residual | Kind::HopDelay =>
                Scope::EachHop,
            Kind::ShiftOut | Kind::DeconvOut | Kind::Out => Scope::EachHopButLast,
            Kind::Total | Kind::QueueService | Kind::QueueDelay | Kind::QueueBacklog =>
                Scope::EachQueue,
            Kind::Higher => Scope::EachPriorityQueue,
            Kind::PathService | Kind::Tfa | Kind::Sfa | Kind::Bound => Scope::EachPath,
        }
    }
}

// ---- the cells of a kind at a server
fn at_visit(kind: Kind, v: Visit) -> Cell
    ensures { result ≡ at_visit kind v }
{
    Cell {
        kind,
        a: v.flow,
        b: v.hop,
    }
}

pub(crate) fn push_visits(
    cells: &mut Vec<Cell>,
    kind: Kind,
    here: &[Visit],
) -> Result<(), AllocError>
    ensures { OnOk result (cells.new.items ≡ cells.old.items ++ map (at_visit kind) here.now) }
{
    for v in here {
        cells.push(at_visit(kind, *v))?;
    }
    Ok(())
}

// Another hop comes after it.
fn goes_on(net: &Network, v: Visit) -> bool
    ensures { result ≡ visiting.goes_on net.now v }
{
    (v.hop as u64) + 1 < hops(net, v.flow) as u64
}

fn push_going_on(
    cells: &mut Vec<Cell>,
    net: &Network,
    kind: Kind,
    here: &[Visit],
) -> Result<(), AllocError>
    ensures { OnOk result
        (cells.new.items ≡ cells.old.items ++ map (at_visit kind) (visiting.going_on net.now here.now)) }
{
    for v in here {
        if goes_on(net, *v) {
            cells.push(at_visit(kind, *v))?;
        }
    }
    Ok(())
}

pub(crate) fn push_numbers(
    cells: &mut Vec<Cell>,
    kind: Kind,
    a: u32,
    count: u32,
) -> Result<(), AllocError>
    ensures { OnOk result (cells.new.items ≡ cells.old.items ++ map (cell_of kind a) (range_with_len 0 count)) }
{
    for b in 0..count {
        cells.push(Cell { kind, a, b })?;
    }
    Ok(())
}

fn push_kind(
    cells: &mut Vec<Cell>,
    net: &Network,
    kind: Kind,
    server: u32,
    here: &[Visit],
) -> Result<(), AllocError>
    requires { here.now ≡ visiting.visits net.now server }
    ensures { OnOk result (cells.new.items ≡ cells.old.items ++ kind_cells net.now server kind) }
{
    match kind.scope() {
        Scope::EachHop => push_visits(cells, kind, here),
        Scope::EachHopButLast => push_going_on(cells, net, kind, here),
        Scope::EachQueue => push_numbers(cells, kind, server, queues(net, server)),
        Scope::EachPriorityQueue => push_numbers(cells, kind, server, levels(net, server)),
        Scope::EachPath => Ok(()),
    }
}

// ---- all cells
fn push_server(
    alloc: Global,
    cells: &mut Vec<Cell>,
    net: &Network,
    server: u32,
) -> Result<(), AllocError>
    ensures { OnOk result (cells.new.items ≡ cells.old.items ++ server_cells net.now server) }
{
    let here = visits(alloc, net, server)?;
    for kind in &SERVER_KINDS {
        push_kind(cells, net, *kind, server, &here)?;
    }
    Ok(())
}

// Those of a kind of whole paths.
fn push_paths(cells: &mut Vec<Cell>, net: &Network, kind: Kind) -> Result<(), AllocError>
    ensures { OnOk result (cells.new.items ≡ cells.old.items ++ path_cells net.now kind) }
{
    let flows = net.flows();
    for number in 0..flows.len() {
        if flows[number].is_some() {
            cells.push(Cell {
                kind,
                a: number as u32,
                b: 0,
            })?;
        }
    }
    Ok(())
}

fn push_all_paths(cells: &mut Vec<Cell>, net: &Network) -> Result<(), AllocError>
    ensures { OnOk result (cells.new.items ≡ cells.old.items ++ flat_map (path_cells net.now) path_kinds) }
{
    for kind in &PATH_KINDS {
        push_paths(cells, net, *kind)?;
    }
    Ok(())
}

/// All cells of a network: server by server in the given order, at a server kind by kind, in a kind by flow or by
/// queue, and then the whole paths. A server past the last has none. Looks at each hop once for each server.
pub fn cells(alloc: Global, net: &Network, order: &[u32]) -> Result<Vec<Cell>, AllocError>
    ensures { IfOk result (λ v. v.items ≡ evaluation_order net.now order.now) }
{
    let mut cells = Vec::new(alloc);
    for server in order {
        push_server(alloc, &mut cells, net, *server)?;
    }
    push_all_paths(&mut cells, net)?;
    Ok(cells)
}
