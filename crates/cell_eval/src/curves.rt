//! The cells whose values are curves: what comes to hops and queues, what serves queues and paths, what leaves hops.

ghost use Rattle.net_cells.specs.declared.cell.Cell.{Cell};
ghost use Rattle.net_cells.specs.declared.cell.Kind.TheVariants.{In, Cross, Total, Higher, QueueService};
ghost use Rattle.net_cells.specs.declared.cell.Kind.TheVariants.{Theta, Residual, HopDelay, ShiftOut};
ghost use Rattle.net_cells.specs.declared.cell.Kind.TheVariants.{DeconvOut, Out, PathService};
ghost use Rattle.std.specs.Prelude.{◌<◌, ℕ, Result};
ghost use Rattle.upp_limits.specs.declared.op_kind.OpFault.{OpFault};
ghost use Rattle.net_cells.specs.Cells.{cell_of};
ghost use Rattle.net_cells.specs.cell_table.Values.{answer_of, meaning_of};
ghost use Rattle.cell_eval.specs.Evaluates.{MayBeMade, Evaluates};

use crate::curve_sums::{flows_sum, queues_sum};
use crate::inputs::{Answer, Inputs};
use crate::named_cells::cell;
use crate::recent::Recent;
use crate::sharing::{again, copied, shared};
use crate::sums::summed;
use cell_numbers::{Pick, packet, place_of};
use net_cells::cell_table::{Table, Value};
use net_cells::{Cell, Kind, live_flow};
use outcomes::Steps;
use std::sync::ledger::Ledger;

impl<T: Table<Value>> Inputs<'_, T> {
    /// The curve with which a flow comes to a hop.
    pub(crate) fn arriving(&self, flow: u32, hop: u32) -> Answer
        requires { MayBeMade self.now.net.now (T.at self.now.table.now) (cell_of In flow hop) }
        ensures { (n : ℕ) → Evaluates self.now.net.now (T.at self.now.table.now) (cell_of In flow hop) n n (answer_of meaning_of result) }
    {
        if hop == 0 {
            match live_flow(self.net, flow) {
                Some(found) => shared(self.alloc, copied(&found.arrival)),
                None => unreachable!(),
            }
        } else {
            again(self.table, cell!(Out, flow, hop - 1))
        }
    }

    /// The sum of the curves of the other flows in the queue of a hop.
    pub(crate) fn cross<L: Ledger>(&self, flow: u32, hop: u32, steps: &mut Steps<L>) -> Answer
        requires { MayBeMade self.now.net.now (T.at self.now.table.now) (cell_of Cross flow hop) }
        ensures { Evaluates self.now.net.now (T.at self.now.table.now) (cell_of Cross flow hop) steps.old steps.new
            (answer_of meaning_of result) }
    {
        let place = place_of(self.net, flow, hop);
        let others = Pick::InQueue(place.1);
        let made = flows_sum(self, place.0, others, Some(flow), steps);
        summed(self.alloc, self.table, made)
    }

    /// The sum of the curves of all flows in a queue; in version 2 that of its parts.
    pub(crate) fn total<L: Ledger>(&self, place: (u32, u32), steps: &mut Steps<L>) -> Answer
        requires { MayBeMade self.now.net.now (T.at self.now.table.now) (cell_of Total place.0 place.1) }
        ensures { Evaluates self.now.net.now (T.at self.now.table.now) (cell_of Total place.0 place.1) steps.old steps.new
            (answer_of meaning_of result) }
    {
        if self.net.version() == 2 {
            return self.parts_sum(place, steps);
        }
        let all = Pick::InQueue(place.1);
        let made = flows_sum(self, place.0, all, None, steps);
        summed(self.alloc, self.table, made)
    }

    /// The sum of the curves of all queues before one.
    pub(crate) fn higher<L: Ledger>(&self, place: (u32, u32), steps: &mut Steps<L>) -> Answer
        requires { MayBeMade self.now.net.now (T.at self.now.table.now) (cell_of Higher place.0 place.1) }
        ensures { Evaluates self.now.net.now (T.at self.now.table.now) (cell_of Higher place.0 place.1) steps.old steps.new
            (answer_of meaning_of result) }
    {
        let made = queues_sum(self, place.0, place.1, steps);
        summed(self.alloc, self.table, made)
    }

    /// What a queue is served.
    pub(crate) fn serving<L: Ledger>(
        &self,
        place: (u32, u32),
        recent: &mut Recent,
        steps: &mut Steps<L>,
    ) -> Answer
        requires { MayBeMade self.now.net.now (T.at self.now.table.now) (cell_of QueueService place.0 place.1) }
        ensures { Evaluates self.now.net.now (T.at self.now.table.now) (cell_of QueueService place.0 place.1) steps.old steps.new
            (answer_of meaning_of result) }
    {
        self.queue_service(place, recent, steps)
    }

    /// What a flow is served along its path.
    pub(crate) fn path<L: Ledger>(&self, flow: u32, steps: &mut Steps<L>) -> Answer
        requires { MayBeMade self.now.net.now (T.at self.now.table.now) (cell_of PathService flow 0) }
        ensures { Evaluates self.now.net.now (T.at self.now.table.now) (cell_of PathService flow 0) steps.old steps.new
            (answer_of meaning_of result) }
    {
        self.path_service(flow, steps)
    }

    /// What is left of a queue's service for one of its flows.
    pub(crate) fn residual<L: Ledger>(&self, flow: u32, hop: u32, steps: &mut Steps<L>) -> Answer
        requires { MayBeMade self.now.net.now (T.at self.now.table.now) (cell_of Residual flow hop) }
        ensures { Evaluates self.now.net.now (T.at self.now.table.now) (cell_of Residual flow hop) steps.old steps.new
            (answer_of meaning_of result) }
    {
        let place = place_of(self.net, flow, hop);
        let service = cell!(QueueService, place.0, place.1);
        let others = cell!(Cross, flow, hop);
        self.left_over(service, others, cell!(Theta, flow, hop), steps)
    }

    /// The curve with which a flow leaves a hop, by the delay there.
    pub(crate) fn shift_out<L: Ledger>(&self, flow: u32, hop: u32, steps: &mut Steps<L>) -> Answer
        requires { MayBeMade self.now.net.now (T.at self.now.table.now) (cell_of ShiftOut flow hop) }
        ensures { Evaluates self.now.net.now (T.at self.now.table.now) (cell_of ShiftOut flow hop) steps.old steps.new
            (answer_of meaning_of result) }
    {
        let by = cell!(HopDelay, flow, hop);
        self.later(cell!(In, flow, hop), by, steps)
    }

    /// The curve with which a flow leaves a hop, by what it is served there.
    pub(crate) fn deconv_out<L: Ledger>(&self, flow: u32, hop: u32, steps: &mut Steps<L>) -> Answer
        requires { MayBeMade self.now.net.now (T.at self.now.table.now) (cell_of DeconvOut flow hop) }
        ensures { Evaluates self.now.net.now (T.at self.now.table.now) (cell_of DeconvOut flow hop) steps.old steps.new
            (answer_of meaning_of result) }
    {
        let service = cell!(Residual, flow, hop);
        let bits = packet(self.net, flow);
        self.spread(cell!(In, flow, hop), service, bits, steps)
    }

    /// The curve with which a flow leaves a hop.
    pub(crate) fn leaving<L: Ledger>(&self, flow: u32, hop: u32, steps: &mut Steps<L>) -> Answer
        requires { MayBeMade self.now.net.now (T.at self.now.table.now) (cell_of Out flow hop) }
        ensures { Evaluates self.now.net.now (T.at self.now.table.now) (cell_of Out flow hop) steps.old steps.new
            (answer_of meaning_of result) }
    {
        let second = cell!(DeconvOut, flow, hop);
        self.lesser(cell!(ShiftOut, flow, hop), second, steps)
    }
}
