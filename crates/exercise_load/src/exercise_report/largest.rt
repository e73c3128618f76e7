//! The largest of bounds and of delays.

ghost use Rattle.std.specs.Prelude.{◌≡◌};
ghost use Rattle.rational.specs.Extended.{max_ext};
ghost use Rattle.std.specs.List.{fold};
ghost use Rattle.exercise_load.specs.exercise_report.Largest as spec;

use fraction128::{Ext, Frac, greater, greater_value};
use net_cells::cell_table::Table;
use net_cells::{Cell, Kind, live_flow};
use net_model::Network;
use rational::Extended;
use report_text::ShownValue;

// The greater of a value and the number of a cell, where the table has one.
fn with_number<V: ShownValue, T: Table<V>>(most: Ext, table: &T, flow: u32) -> Ext
    ensures { result ≡ fold max_ext most
        (spec.number_alone (T.at table.now (spec.bound_cell flow))) }
{
    let cell = Cell {
        kind: Kind::Bound,
        a: flow,
        b: 0,
    };
    match table.value(cell) {
        Some(value) => match value.number() {
            Some(bound) => greater_value(most, *bound),
            None => most,
        },
        None => most,
    }
}

// The greater of a value and the bound of a flow, where it is live.
fn with_bound<V: ShownValue, T: Table<V>>(most: Ext, net: &Network, table: &T, flow: u32) -> Ext
    ensures { result ≡ fold max_ext most (spec.bound_at net.now (T.at table.now) flow) }
{
    match live_flow(net, flow) {
        Some(_) => with_number(most, table, flow),
        None => most,
    }
}

/// The largest of 0 and of the bounds of a network's live flows.
pub(crate) fn largest_bound<V: ShownValue, T: Table<V>>(net: &Network, table: &T) -> Ext
    ensures { result ≡ spec.largest_bound net.now (T.at table.now) }
{
    let flows = net.flows();
    let mut most = Extended::Fin(Frac::zero());
    for number in 0..flows.len() {
        most = with_bound(most, net, table, number as u32);
    }
    most
}

/// The largest of 0 and of some delays.
pub(crate) fn largest_delay(delays: &[Frac]) -> Frac
    ensures { result ≡ spec.largest_delay delays.now }
{
    let mut most = Frac::zero();
    for delay in delays {
        most = greater(most, *delay);
    }
    most
}
