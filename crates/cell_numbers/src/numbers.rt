//! A number as a value, how far one cell's curve is behind another's, and the lesser of two bounds.

ghost use Rattle.std.specs.Prelude.{◌≡◌, ◌+◌, Ok};
ghost use Rattle.net_cells.specs.declared.cell.Kind.TheVariants.{Cross, QueueService, Theta, Tfa, Sfa};
ghost use Rattle.net_cells.specs.Numbered as at;
ghost use Rattle.net_cells.specs.Cells.{cell_of};
ghost use Rattle.net_cells.specs.Meanings.{number};
ghost use Rattle.net_cells.specs.Formulas.{value_of, horizontal, smaller};
ghost use Rattle.net_cells.specs.CellFormulas.{formula};
ghost use Rattle.net_cells.specs.Answers.{Answers};
ghost use Rattle.net_cells.specs.cell_table.Values.{answer_of, meaning_of};
ghost use Rattle.cell_numbers.specs.Shapes.{Rises, Serving};
ghost use Rattle.cell_numbers.specs.TableValues.{HasCurve, IsNumberAt};

use crate::reading::{curve_at, number_at};
use curve_deviation::horizontal;
use fraction128::{Ext, lesser_value};
use net_cells::cell_table::{Table, Value};
use net_cells::{Cell, Kind, queue_of_hop, server_of_hop};
use net_model::Network;
use outcomes::Steps;
use std::sync::ledger::Ledger;
use upp_limits::OpFault;

/// The server and the queue of a hop.
pub fn place_of(net: &Network, flow: u32, hop: u32) -> (u32, u32)
    ensures server { result.0 ≡ at.server_of_hop net.now flow hop }
    ensures queue { result.1 ≡ at.queue_of_hop net.now flow hop }
{
    (server_of_hop(net, flow, hop), queue_of_hop(net, flow, hop))
}

/// A number as a value, or the same refusal.
pub fn numbered(made: Result<Ext, OpFault>) -> Result<Value, OpFault>
    ensures { answer_of meaning_of result ≡ answer_of number made }
{
    match made {
        Ok(x) => Ok(Value::Number(x)),
        Err(fault) => Err(fault),
    }
}

/// The horizontal deviation of a cell's curve, which rises, and another's, which serves. One step is counted; refused
/// only where that call is over a limit.
pub fn delay_between<T: Table<Value>, L: Ledger>(
    table: &T,
    from: Cell,
    by: Cell,
    steps: &mut Steps<L>,
) -> Result<Ext, OpFault>
    requires rises { HasCurve (T.at table.now) from Rises }
    requires serves { HasCurve (T.at table.now) by Serving }
    ensures answer { Answers (T.at table.now) (horizontal (value_of from) (value_of by)) (answer_of number result) }
    ensures count { steps.new ≡ steps.old + 1 }
{
    horizontal(curve_at(table, from), curve_at(table, by), steps)
}

/// How long the curve of a queue's other flows may lag behind the queue's service.
pub fn theta_of<T: Table<Value>, L: Ledger>(
    table: &T,
    net: &Network,
    flow: u32,
    hop: u32,
    steps: &mut Steps<L>,
) -> Result<Value, OpFault>
    requires rises { HasCurve (T.at table.now) (cell_of Cross flow hop) Rises }
    requires serves { HasCurve (T.at table.now)
        (cell_of QueueService (at.server_of_hop net.now flow hop) (at.queue_of_hop net.now flow hop)) Serving }
    ensures answer { Answers (T.at table.now) (formula net.now (cell_of Theta flow hop)) (answer_of meaning_of result) }
    ensures count { steps.new ≡ steps.old + 1 }
{
    let place = place_of(net, flow, hop);
    let others = Cell {
        kind: Kind::Cross,
        a: flow,
        b: hop,
    };
    let service = Cell {
        kind: Kind::QueueService,
        a: place.0,
        b: place.1,
    };
    numbered(delay_between(table, others, service, steps))
}

/// The lesser of the two bounds on a flow's delay from end to end.
pub fn bound_of<T: Table<Value>>(table: &T, flow: u32) -> Value
    requires total { IsNumberAt (T.at table.now) (cell_of Tfa flow 0) }
    requires separate { IsNumberAt (T.at table.now) (cell_of Sfa flow 0) }
    ensures { Answers (T.at table.now) (smaller (value_of (cell_of Tfa flow 0)) (value_of (cell_of Sfa flow 0)))
        (Ok (meaning_of result)) }
{
    let total = Cell {
        kind: Kind::Tfa,
        a: flow,
        b: 0,
    };
    let separate = Cell {
        kind: Kind::Sfa,
        a: flow,
        b: 0,
    };
    let hop_by_hop = number_at(table, total);
    let whole_path = number_at(table, separate);
    Value::Number(lesser_value(hop_by_hop, whole_path))
}
