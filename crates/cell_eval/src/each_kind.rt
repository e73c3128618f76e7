//! The value of a cell, whatever its kind.

ghost use Rattle.net_cells.specs.cell_table.Values.{answer_of, meaning_of};
ghost use Rattle.cell_eval.specs.Evaluates.{MayBeMade, Evaluates};

use crate::inputs::{Answer, Inputs};
use crate::recent::Recent;
use net_cells::cell_table::{Table, Value};
use net_cells::{Cell, Kind};
use outcomes::Steps;
use std::sync::ledger::Ledger;

impl<T: Table<Value>> Inputs<'_, T> {
    /// The value of a cell by its kind: each call makes the one that its name says. `recent` is the last service of a priority
    /// queue.
    pub(crate) fn value<L: Ledger>(
        &self,
        cell: Cell,
        recent: &mut Recent,
        steps: &mut Steps<L>,
    ) -> Answer
        requires { MayBeMade self.now.net.now (T.at self.now.table.now) cell }
        ensures { Evaluates self.now.net.now (T.at self.now.table.now) cell steps.old steps.new
            (answer_of meaning_of result) }
    {
        match cell.kind {
            Kind::In => self.arriving(cell.a, cell.b),
            Kind::Cross => self.cross(cell.a, cell.b, steps),
            Kind::Total => self.total((cell.a, cell.b), steps),
            Kind::Higher => self.higher((cell.a, cell.b), steps),
            Kind::QueueService => self.serving((cell.a, cell.b), recent, steps),
            Kind::Theta => self.theta(cell.a, cell.b, steps),
            Kind::Residual => self.residual(cell.a, cell.b, steps),
            Kind::QueueDelay => self.queue_delay((cell.a, cell.b), steps),
            Kind::QueueBacklog => self.queue_backlog((cell.a, cell.b), steps),
            Kind::HopDelay => self.hop_delay(cell.a, cell.b, steps),
            Kind::ShiftOut => self.shift_out(cell.a, cell.b, steps),
            Kind::DeconvOut => self.deconv_out(cell.a, cell.b, steps),
            Kind::Out => self.leaving(cell.a, cell.b, steps),
            Kind::PathService => self.path(cell.a, steps),
            Kind::Tfa => self.tfa(cell.a),
            Kind::Sfa => self.sfa(cell.a, steps),
            Kind::Bound => self.bound(cell.a),
        }
    }
}
