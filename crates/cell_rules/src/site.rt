//! Where an edit changes a network, and which cells it may change there.

ghost use Rattle.std.specs.Prelude.{◌≡◌};
ghost use Rattle.net_cells.specs.QueueParts.{in_part};
ghost use Rattle.cell_rules.specs.Sites as spec;
ghost use Rattle.cell_rules.specs.Sites.{IsSameBut, OthersKeepTheirRule};
ghost use Rattle.cell_rules.specs.Rules.{HaveSameFlows};
ghost use Rattle.net_model.specs.Networks.{Net};

use crate::lists::{is_by_links, is_unused};
use cell_numbers::Pick;
use net_cells::{Cell, Kind, live_flow, server_of_hop};
use net_model::Network;

/// Where two networks differ: at one server or one flow, by its number, or anywhere.
#[derive(Clone, Copy)]
pub enum Site {
    Anywhere,
    Server(u32),
    Flow(u32),
}

fn is_among(number: u32, numbers: &[u32]) -> bool
    ensures { result ≡ spec.is_among number numbers.now }
{
    for other in numbers {
        if *other == number {
            return true;
        }
    }
    false
}

/// Whether a flow passes a server.
pub(crate) fn passes(net: &Network, flow: u32, server: u32) -> bool
    ensures { result ≡ spec.passes net.now flow server }
{
    match live_flow(net, flow) {
        Some(found) => is_among(server, &found.path),
        None => false,
    }
}

// Whether it does in one of two networks.
fn comes_by(old: &Network, new: &Network, flow: u32, server: u32) -> bool
    ensures { result ≡ spec.comes_by old.now new.now flow server }
{
    passes(old, flow, server) || passes(new, flow, server)
}

// Whether a part of a queue has a hop.
fn has_part(net: &Network, place: (u32, u32), part: u64) -> bool
    ensures { result ≡ spec.has_hop (in_part net.now place.0 place.1 part) }
{
    !is_unused(net, place.0, Pick::InPart(place.1, part))
}

// Whether the sum of a queue's flows is cut by the link of a server before.
fn is_cut_by(net: &Network, server: u32, place: (u32, u32)) -> bool
    ensures { result ≡ spec.is_cut_by net.now server place.0 place.1 }
{
    is_by_links(net) && has_part(net, place, u64::from(server) + 1)
}

// Whether a cell is of a server, of a path that reads its link, or a sum that is cut by it.
fn reads_server(net: &Network, server: u32, cell: Cell) -> bool
    ensures { result ≡ spec.reads_server net.now server cell.kind cell.a cell.b }
{
    match cell.kind {
        Kind::Total => cell.a == server || is_cut_by(net, server, (cell.a, cell.b)),
        Kind::Higher | Kind::QueueService | Kind::QueueDelay | Kind::QueueBacklog => cell.a
            == server,
        Kind::Tfa | Kind::Sfa => passes(net, cell.a, server),
        _ => false,
    }
}

// Whether it is of a flow, or of a queue that the flow passes and reads it.
fn reads_flow(old: &Network, new: &Network, flow: u32, cell: Cell) -> bool
    ensures { result ≡ spec.reads_flow old.now new.now flow cell.kind cell.a cell.b }
{
    match cell.kind {
        Kind::Total | Kind::QueueService | Kind::QueueBacklog => comes_by(old, new, flow, cell.a),
        Kind::Higher | Kind::QueueDelay => false,
        Kind::Cross => {
            let server = server_of_hop(new, cell.a, cell.b);
            cell.a == flow || comes_by(old, new, flow, server)
        }
        _ => cell.a == flow,
    }
}

/// Whether two networks that differ at one place alone are told to have the same flows.
pub(crate) fn keeps_flows(site: Site) -> bool
    ensures { (old new : Net) → IsSameBut site old new → HaveSameFlows result old new }
{
    match site {
        Site::Server(_) => true,
        Site::Anywhere | Site::Flow(_) => false,
    }
}

/// Whether a cell may be made of other things in two networks that differ at one place alone.
pub fn is_candidate(site: Site, old: &Network, new: &Network, cell: Cell) -> bool
    ensures { result ≡ spec.is_candidate site old.now new.now cell }
{
    match site {
        Site::Anywhere => true,
        Site::Server(server) => reads_server(new, server, cell),
        Site::Flow(flow) => reads_flow(old, new, flow, cell),
    }
}

/// Each cell of the newer of two networks that is no candidate is one of the older too, and made of the same.
pub fn others_keep_their_rule()
    ensures { OthersKeepTheirRule }
{}
