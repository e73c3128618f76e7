//! The numbers of hops and of whole paths.

ghost use Rattle.std.specs.Prelude.{◌≡◌, ◌<◌, ℕ, List};
ghost use Rattle.net_cells.specs.declared.cell.Kind.TheVariants.{HopDelay};
ghost use Rattle.net_cells.specs.Numbered as at;
ghost use Rattle.net_cells.specs.Cells.{cell_of};
ghost use Rattle.net_cells.specs.CellFormulas.{hop_delay_cells, link_delays};
ghost use Rattle.net_cells.specs.Means.{HaveNumbers, with_links};
ghost use Rattle.rational.specs.Extended.{Ext};
ghost use Rattle.cell_numbers.specs.TableValues.{IsNumberAt};
ghost use Rattle.cell_eval.specs.Tallies.{AreAdded};

use crate::number_sums::{Added, and, no_number};
use cell_numbers::{link, number_at};
use net_cells::cell_table::{Table, Value};
use net_cells::{Cell, Kind, hops, server_of_hop};
use net_model::Network;
use rational::Extended;

/// The delays of a flow's hops, added up.
pub(crate) fn delays<T: Table<Value>>(table: &T, net: &Network, flow: u32) -> Added
    requires { (k : ℕ) → k < at.hops net.now flow → IsNumberAt (T.at table.now) (cell_of HopDelay flow k) }
    ensures { (xs : List Ext)
        → HaveNumbers (T.at table.now) (hop_delay_cells net.now flow) xs → AreAdded xs result }
{
    let mut all = no_number();
    let count = hops(net, flow);
    for hop in 0..count {
        let cell = Cell {
            kind: Kind::HopDelay,
            a: flow,
            b: hop,
        };
        all = and(all, number_at(table, cell));
    }
    all
}

/// Numbers and then the links along a flow's path, added up.
pub(crate) fn with_path(numbers: Added, net: &Network, flow: u32) -> Added
    ensures { (xs : List Ext) → AreAdded xs numbers → AreAdded (with_links xs (link_delays net.now flow)) result }
{
    let mut all = numbers;
    for hop in 0..hops(net, flow) {
        let number = server_of_hop(net, flow, hop);
        all = and(all, Extended::Fin(link(net, number)));
    }
    all
}
