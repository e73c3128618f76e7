//! Whether two networks have the same of what a cell reads beside other cells: curves, packets, links, and places.

ghost use Rattle.std.specs.Prelude.{◌≡◌, IsTrue};
ghost use Rattle.upp_curve.specs.Curves.{IsCurve};
ghost use Rattle.net_cells.specs.CellFormulas.{link_delays};
ghost use Rattle.net_cells.specs.Numbered as at;
ghost use Rattle.cell_rules.specs.Rules.{TellsSame, hop_queue};

use cell_numbers::{link, packet};
use fraction128::Frac;
use net_cells::{hops, live_flow, queue_of_hop, server_of_hop};
use net_model::Network;
use upp_curve::{Curve, equal};
use upp_normal::normal_form_is_unique;

/// Whether two curves are one.
pub(crate) fn same_curve(f: &Curve, g: &Curve) -> bool
    ensures { TellsSame f.now g.now result }
{
    // What curves keep is in the contracts of these calls.
    normal_form_is_unique();
    f.keeps();
    g.keeps();
    equal(f, g)
}

/// Whether a flow's arrival curve is the same in both networks; it is live in both.
pub(crate) fn same_arrival(old: &Network, new: &Network, flow: u32) -> bool
    requires old { IsTrue (at.is_live old.now flow) }
    requires new { IsTrue (at.is_live new.now flow) }
    ensures { TellsSame (at.arrival old.now flow) (at.arrival new.now flow) result }
{
    match live_flow(old, flow) {
        Some(f) => match live_flow(new, flow) {
            Some(g) => same_curve(&f.arrival, &g.arrival),
            None => unreachable!(),
        },
        None => unreachable!(),
    }
}

/// Whether a hop is at the same queue of the same server.
pub(crate) fn same_place(old: &Network, new: &Network, flow: u32, hop: u32) -> bool
    ensures { TellsSame (hop_queue old.now flow hop) (hop_queue new.now flow hop) result }
{
    server_of_hop(old, flow, hop) == server_of_hop(new, flow, hop)
        && queue_of_hop(old, flow, hop) == queue_of_hop(new, flow, hop)
}

/// Whether a flow's longest packet has as many bits.
pub(crate) fn same_packet(old: &Network, new: &Network, flow: u32) -> bool
    ensures { TellsSame (at.packet old.now flow) (at.packet new.now flow) result }
{
    packet(old, flow) == packet(new, flow)
}

// The link after a hop.
fn link_at(net: &Network, flow: u32, hop: u32) -> Frac
    ensures { result ≡ at.link net.now (at.server_of_hop net.now flow hop) }
{
    link(net, server_of_hop(net, flow, hop))
}

pub(crate) fn same_number(here: Frac, there: Frac) -> bool
    ensures { TellsSame here there result }
{
    here == there
}

/// Whether the links along a flow's path are as many, and each as long.
pub(crate) fn same_links(old: &Network, new: &Network, flow: u32) -> bool
    ensures { TellsSame (link_delays old.now flow) (link_delays new.now flow) result }
{
    let count = hops(old, flow);
    if count != hops(new, flow) {
        return false;
    }
    for hop in 0..count {
        let here = link_at(old, flow, hop);
        let there = link_at(new, flow, hop);
        if !same_number(here, there) {
            return false;
        }
    }
    true
}
