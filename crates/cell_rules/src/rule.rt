//! Whether two networks make a cell of the same.

ghost use Rattle.std.specs.Prelude.{◌≡◌, ◌<◌, ◌-◌, ◌↔◌, IsTrue};
ghost use Rattle.net_cells.specs.declared.cell.Kind.TheVariants.{In, PathService};
ghost use Rattle.net_cells.specs.Cells.{has_cell};
ghost use Rattle.net_cells.specs.CellFormulas.{formula};
ghost use Rattle.net_cells.specs.Numbered as at;
ghost use Rattle.cell_rules.specs.cell_changes.Changes.{HasSameRule};
ghost use Rattle.cell_rules.specs.Rules.{TellsSame, TellsFormula, HaveSameFlows};

use crate::lists::{same_cross, same_longest, same_total};
use crate::reads::{same_arrival, same_links, same_packet, same_place};
use crate::services::same_queue_service;
use cell_numbers::Pick;
use net_cells::{Cell, Kind, Scope, hops, levels, live_flow, queues};
use net_model::Network;

/// Whether a network has a cell. It takes no memory.
pub fn has_cell(net: &Network, cell: Cell) -> bool
    ensures { result ≡ has_cell net.now cell }
{
    match cell.kind.scope() {
        Scope::EachHop => cell.b < hops(net, cell.a),
        Scope::EachHopButLast => u64::from(cell.b) + 1 < u64::from(hops(net, cell.a)),
        Scope::EachQueue => cell.b < queues(net, cell.a),
        Scope::EachPriorityQueue => cell.b < levels(net, cell.a),
        Scope::EachPath => match live_flow(net, cell.a) {
            Some(_) => cell.b == 0,
            None => false,
        },
    }
}

// Whether a flow comes to a hop by the same: its first hop by its arrival curve.
fn same_in(old: &Network, new: &Network, flow: u32, hop: u32) -> bool
    requires old { hop < at.hops old.now flow }
    requires new { hop < at.hops new.now flow }
    ensures { TellsFormula old.now new.now In flow hop result }
{
    if hop == 0 {
        same_arrival(old, new, flow)
    } else {
        true
    }
}

// The place of a flow's last hop on its path.
fn last_hop(net: &Network, flow: u32) -> u32
    ensures { result ≡ at.hops net.now flow - 1 }
{
    let count = hops(net, flow);
    if count == 0 { 0 } else { count - 1 }
}

// Whether a flow is served along its path by the same: as many hops, and packets as long where there is more than one.
fn same_path(old: &Network, new: &Network, flow: u32) -> bool
    ensures { TellsFormula old.now new.now PathService flow 0 result }
{
    let last = last_hop(old, flow);
    let new_last = last_hop(new, flow);
    if last != new_last {
        return false;
    }
    if last == 0 {
        return true;
    }
    same_packet(old, new, flow)
}

// Of a cell of both.
fn same_formula(told: bool, cell: Cell, old: &Network, new: &Network) -> bool
    requires flows { HaveSameFlows told old.now new.now }
    requires old { IsTrue (has_cell old.now cell) }
    requires new { IsTrue (has_cell new.now cell) }
    ensures { TellsSame (formula old.now cell) (formula new.now cell) result }
{
    match cell.kind {
        Kind::In => same_in(old, new, cell.a, cell.b),
        Kind::Cross => same_cross(old, new, cell.a, cell.b),
        Kind::Total => same_total(told, old, new, cell.a, cell.b),
        Kind::QueueService => same_queue_service(told, old, new, cell.a, cell.b),
        Kind::Theta => same_place(old, new, cell.a, cell.b),
        Kind::Residual => same_place(old, new, cell.a, cell.b),
        Kind::QueueBacklog => same_longest(told, old, new, cell.a, Pick::InQueue(cell.b)),
        Kind::HopDelay => same_place(old, new, cell.a, cell.b),
        Kind::DeconvOut => same_packet(old, new, cell.a),
        Kind::PathService => same_path(old, new, cell.a),
        Kind::Tfa => same_links(old, new, cell.a),
        Kind::Sfa => same_links(old, new, cell.a),
        Kind::Higher | Kind::QueueDelay | Kind::ShiftOut | Kind::Out | Kind::Bound => true,
    }
}

/// Whether two networks both have a cell and make it of the same, where it may be told that they have the same flows.
pub(crate) fn same_rule_by(told: bool, cell: Cell, old: &Network, new: &Network) -> bool
    requires { HaveSameFlows told old.now new.now }
    ensures { IsTrue result ↔ HasSameRule old.now new.now cell }
{
    has_cell(old, cell) && has_cell(new, cell) && same_formula(told, cell, old, new)
}

/// Whether two networks both have a cell and make it of the same: the same operators on the same cells, with the same
/// curves, packets, quanta and links. It takes no memory.
pub fn same_rule(cell: Cell, old: &Network, new: &Network) -> bool
    ensures { IsTrue result ↔ HasSameRule old.now new.now cell }
{
    same_rule_by(false, cell, old, new)
}
