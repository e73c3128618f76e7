//! The cells whose values are numbers: delays and backlogs of queues, hops and whole paths.

ghost use Rattle.net_cells.specs.declared.cell.Cell.{Cell};
ghost use Rattle.net_cells.specs.declared.cell.Kind.TheVariants.{In, Cross, Total, QueueService, Theta};
ghost use Rattle.net_cells.specs.declared.cell.Kind.TheVariants.{Residual, QueueDelay, QueueBacklog};
ghost use Rattle.net_cells.specs.declared.cell.Kind.TheVariants.{HopDelay, PathService, Tfa, Sfa, Bound};
ghost use Rattle.std.specs.Prelude.{◌<◌, ℕ, Result};
ghost use Rattle.upp_limits.specs.declared.op_kind.OpFault.{OpFault};
ghost use Rattle.net_cells.specs.Cells.{cell_of};
ghost use Rattle.net_cells.specs.cell_table.Values.{answer_of, meaning_of};
ghost use Rattle.cell_eval.specs.Evaluates.{MayBeMade, Evaluates};

use crate::bounds::{delays, with_path};
use crate::inputs::{Answer, Inputs};
use crate::named_cells::cell;
use crate::number_sums::{and, no_number, sum_of};
use cell_numbers::{
    Pick, bound_of, delay_between, longest_at, number_at, numbered, place_of, theta_of,
};
use fraction128::lesser_value;
use net_cells::cell_table::{Table, Value};
use net_cells::{Cell, Kind};
use outcomes::Steps;
use std::sync::ledger::Ledger;

impl<T: Table<Value>> Inputs<'_, T> {
    /// How long the curve of a queue's other flows may lag behind the queue's service.
    pub(crate) fn theta<L: Ledger>(&self, flow: u32, hop: u32, steps: &mut Steps<L>) -> Answer
        requires { MayBeMade self.now.net.now (T.at self.now.table.now) (cell_of Theta flow hop) }
        ensures { Evaluates self.now.net.now (T.at self.now.table.now) (cell_of Theta flow hop) steps.old steps.new
            (answer_of meaning_of result) }
    {
        theta_of(self.table, self.net, flow, hop, steps)
    }

    /// The longest delay in a queue.
    pub(crate) fn queue_delay<L: Ledger>(&self, place: (u32, u32), steps: &mut Steps<L>) -> Answer
        requires { MayBeMade self.now.net.now (T.at self.now.table.now) (cell_of QueueDelay place.0 place.1) }
        ensures { Evaluates self.now.net.now (T.at self.now.table.now) (cell_of QueueDelay place.0 place.1) steps.old steps.new
            (answer_of meaning_of result) }
    {
        let service = cell!(QueueService, place.0, place.1);
        numbered(delay_between(self.table, cell!(Total, place.0, place.1), service, steps))
    }

    /// The largest backlog of a queue, in bits.
    pub(crate) fn queue_backlog<L: Ledger>(&self, place: (u32, u32), steps: &mut Steps<L>) -> Answer
        requires { MayBeMade self.now.net.now (T.at self.now.table.now) (cell_of QueueBacklog place.0 place.1) }
        ensures { Evaluates self.now.net.now (T.at self.now.table.now) (cell_of QueueBacklog place.0 place.1) steps.old steps.new
            (answer_of meaning_of result) }
    {
        let service = cell!(QueueService, place.0, place.1);
        let bits = longest_at(self.net, place.0, Pick::InQueue(place.1));
        let made = self.backlog(cell!(Total, place.0, place.1), service, bits, steps);
        numbered(made)
    }

    /// The longest delay of a flow at a hop: the lesser of its queue's delay and its own.
    pub(crate) fn hop_delay<L: Ledger>(&self, flow: u32, hop: u32, steps: &mut Steps<L>) -> Answer
        requires { MayBeMade self.now.net.now (T.at self.now.table.now) (cell_of HopDelay flow hop) }
        ensures { Evaluates self.now.net.now (T.at self.now.table.now) (cell_of HopDelay flow hop) steps.old steps.new
            (answer_of meaning_of result) }
    {
        let place = place_of(self.net, flow, hop);
        let service = cell!(Residual, flow, hop);
        match delay_between(self.table, cell!(In, flow, hop), service, steps) {
            Ok(own) => {
                let queue = number_at(self.table, cell!(QueueDelay, place.0, place.1));
                Ok(Value::Number(lesser_value(queue, own)))
            }
            Err(fault) => Err(fault),
        }
    }

    /// The delays of a flow's hops and the links along its path, added up.
    pub(crate) fn tfa(&self, flow: u32) -> Answer
        requires { MayBeMade self.now.net.now (T.at self.now.table.now) (cell_of Tfa flow 0) }
        ensures { (n : ℕ) → Evaluates self.now.net.now (T.at self.now.table.now) (cell_of Tfa flow 0) n n (answer_of meaning_of result) }
    {
        numbered(sum_of(with_path(delays(self.table, self.net, flow), self.net, flow)))
    }

    /// The delay of a flow by the service along its path, with the links.
    pub(crate) fn sfa<L: Ledger>(&self, flow: u32, steps: &mut Steps<L>) -> Answer
        requires { MayBeMade self.now.net.now (T.at self.now.table.now) (cell_of Sfa flow 0) }
        ensures { Evaluates self.now.net.now (T.at self.now.table.now) (cell_of Sfa flow 0) steps.old steps.new
            (answer_of meaning_of result) }
    {
        let service = cell!(PathService, flow, 0);
        match delay_between(self.table, cell!(In, flow, 0), service, steps) {
            Ok(delay) => numbered(sum_of(with_path(and(no_number(), delay), self.net, flow))),
            Err(fault) => Err(fault),
        }
    }

    /// The lesser of the two bounds on a flow's delay from end to end.
    pub(crate) fn bound(&self, flow: u32) -> Answer
        requires { MayBeMade self.now.net.now (T.at self.now.table.now) (cell_of Bound flow 0) }
        ensures { (n : ℕ) → Evaluates self.now.net.now (T.at self.now.table.now) (cell_of Bound flow 0) n n (answer_of meaning_of result) }
    {
        Ok(bound_of(self.table, flow))
    }
}
