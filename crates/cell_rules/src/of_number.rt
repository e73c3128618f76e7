//! The cells of a network by a number.

ghost use Rattle.std.specs.Prelude.{◌≡◌, ◌++◌, IfOk, OnOk};
ghost use Rattle.std.specs.List.{flat_map};
ghost use Rattle.cell_rules.specs.Finding.{AreCellsOf, kind_cells_of};

use crate::rule::has_cell;
use net_cells::{Cell, Kind, PATH_KINDS, SERVER_KINDS};
use net_model::Network;
use std::alloc::{AllocError, Global};

/// How many hops a path has at most; a server has fewer queues.
const MOST_HOPS: u32 = 16;

// Those of a kind, after others.
fn push_kind(
    cells: &mut Vec<Cell>,
    net: &Network,
    kind: Kind,
    number: u32,
) -> Result<(), AllocError>
    ensures { OnOk result (cells.new.items ≡ cells.old.items ++ kind_cells_of net.now number kind) }
{
    for b in 0..MOST_HOPS {
        let cell = Cell { kind, a: number, b };
        if has_cell(net, cell) {
            cells.push(cell)?;
        }
    }
    Ok(())
}

// Those of some kinds, after others.
fn push_kinds(
    cells: &mut Vec<Cell>,
    net: &Network,
    kinds: &[Kind],
    number: u32,
) -> Result<(), AllocError>
    ensures { OnOk result (cells.new.items ≡ cells.old.items ++ flat_map (kind_cells_of net.now number) kinds.now) }
{
    for kind in kinds {
        push_kind(cells, net, *kind, number)?;
    }
    Ok(())
}

/// The cells of a network by a number: those of the flow and those of the server that have it. Refused only for want of
/// memory.
pub fn cells_of(alloc: Global, net: &Network, number: u32) -> Result<Vec<Cell>, AllocError>
    ensures { IfOk result (λ v. AreCellsOf net.now number v.items) }
{
    net.keeps();
    let mut cells = Vec::new(alloc);
    push_kinds(&mut cells, net, &SERVER_KINDS, number)?;
    push_kinds(&mut cells, net, &PATH_KINDS, number)?;
    Ok(cells)
}
