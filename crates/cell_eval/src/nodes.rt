//! What operators make of the values of cells.

ghost use Rattle.std.specs.Prelude.{◌≡◌, ◌+◌, ◌-◌, IfOk, IfErr};
ghost use Rattle.upp_limits.specs.declared.op_kind.OpKind.TheVariants.{Min, Deconvolve};
ghost use Rattle.upp_curve.specs.Curve.{value_at};
ghost use Rattle.min_plus.specs.Functions.{IsNonneg, IsFinite};
ghost use Rattle.net_cells.specs.Meanings.{curve, number};
ghost use Rattle.net_cells.specs.Formulas.{value_of, made, moved, leftover, vertical};
ghost use Rattle.net_cells.specs.CellFormulas.{less};
ghost use Rattle.net_cells.specs.Answers.{Answers};
ghost use Rattle.net_cells.specs.Refusals.{RefusedAt};
ghost use Rattle.net_cells.specs.cell_table.Values.{answer_of, meaning_of};
ghost use Rattle.outcomes.specs.Spending.{Counts};
ghost use Rattle.cell_numbers.specs.Shapes.{Serving};
ghost use Rattle.cell_eval.specs.Evaluates.{AreServed};
ghost use Rattle.cell_numbers.specs.TableValues.{HasCurve, HasNumber, IsCurveAt, Deviate};

use crate::inputs::{Answer, Inputs};
use crate::sharing::shared;
use cell_numbers::{curve_at, number_at};
use curve_call::intact;
use curve_deconv::deconvolve;
use curve_deviation::vertical;
use fraction128::Ext;
use net_cells::Cell;
use net_cells::cell_table::{Table, Value};
use outcomes::Steps;
use plain_operators::running::{min, shift};
use residuals::fifo::fifo_service;
use residuals::packetiser::packetised;
use run_laws::whole;
use std::sync::ledger::Ledger;
use upp_curve::Curve;
use upp_limits::OpFault;

impl<T: Table<Value>> Inputs<'_, T> {
    /// What a queue's service leaves to a flow of it.
    pub(crate) fn left_over<L: Ledger>(
        &self,
        service: Cell,
        cross: Cell,
        theta: Cell,
        steps: &mut Steps<L>,
    ) -> Answer
        requires serves { HasCurve (T.at self.now.table.now) service Serving }
        requires cross { IsCurveAt (T.at self.now.table.now) cross }
        requires theta { Deviate (T.at self.now.table.now) cross service theta }
        ensures answer { Answers (T.at self.now.table.now) (leftover (value_of service) (value_of cross) (value_of theta))
            (answer_of meaning_of result) }
        ensures count { steps.new ≡ steps.old + 1 }
    {
        let by = number_at(self.table, theta);
        let made = fifo_service(
            self.alloc,
            curve_at(self.table, service),
            curve_at(self.table, cross),
            by,
            steps,
        );
        shared(self.alloc, made)
    }

    /// A cell's curve later by another's number.
    pub(crate) fn later<L: Ledger>(&self, from: Cell, by: Cell, steps: &mut Steps<L>) -> Answer
        requires curve { IsCurveAt (T.at self.now.table.now) from }
        requires ahead { HasNumber (T.at self.now.table.now) by IsNonneg }
        ensures answer { Answers (T.at self.now.table.now) (moved (value_of from) (value_of by)) (answer_of meaning_of result) }
        ensures count { steps.new ≡ steps.old + 1 }
    {
        let by = number_at(self.table, by);
        let made = intact(shift(self.alloc, curve_at(self.table, from), by, steps));
        shared(self.alloc, made)
    }

    /// The lesser of the curves of two cells.
    pub(crate) fn lesser<L: Ledger>(
        &self,
        first: Cell,
        second: Cell,
        steps: &mut Steps<L>,
    ) -> Answer
        requires first { IsCurveAt (T.at self.now.table.now) first }
        requires second { IsCurveAt (T.at self.now.table.now) second }
        ensures answer { Answers (T.at self.now.table.now) (made Min (value_of first) (value_of second))
            (answer_of meaning_of result) }
        ensures count { steps.new ≡ steps.old + 1 }
    {
        let made = intact(min(
            self.alloc,
            curve_at(self.table, first),
            curve_at(self.table, second),
            steps,
        ));
        shared(self.alloc, made)
    }

    /// A cell's service less one packet.
    pub(crate) fn in_packets<L: Ledger>(
        &self,
        service: Cell,
        bits: u32,
        steps: &mut Steps<L>,
    ) -> Result<Curve, OpFault>
        requires { HasCurve (T.at self.now.table.now) service Serving }
        ensures answer { Answers (T.at self.now.table.now) (less (value_of service) bits) (answer_of curve result) }
        ensures refused { IfErr result (λ fault. RefusedAt (T.at self.now.table.now) (less (value_of service) bits) fault 1) }
        ensures finite { IfOk result (λ c. IsFinite (value_at c)) }
        ensures count { steps.new ≡ steps.old + 1 }
    {
        packetised(
            self.alloc,
            curve_at(self.table, service),
            whole(bits),
            steps,
        )
    }

    /// With what curve one goes on that comes with a cell's curve and is served in whole packets by another's.
    pub(crate) fn spread<L: Ledger>(
        &self,
        from: Cell,
        service: Cell,
        bits: u32,
        steps: &mut Steps<L>,
    ) -> Answer
        requires { AreServed (T.at self.now.table.now) from service }
        ensures answer { Answers (T.at self.now.table.now) (made Deconvolve (value_of from) (less (value_of service) bits))
            (answer_of meaning_of result) }
        ensures refused { IfErr result (λ fault. RefusedAt (T.at self.now.table.now)
            (made Deconvolve (value_of from) (less (value_of service) bits)) fault (steps.new - steps.old)) }
        ensures counts { Counts 2 steps.old steps.new (answer_of meaning_of result) }
    {
        let from = curve_at(self.table, from);
        match self.in_packets(service, bits, steps) {
            Ok(packets) => {
                let made = intact(deconvolve(self.alloc, from, &packets, steps));
                shared(self.alloc, made)
            }
            Err(fault) => Err(fault),
        }
    }

    /// How many bits are above a cell's service in whole packets.
    pub(crate) fn backlog<L: Ledger>(
        &self,
        from: Cell,
        service: Cell,
        bits: u32,
        steps: &mut Steps<L>,
    ) -> Result<Ext, OpFault>
        requires { AreServed (T.at self.now.table.now) from service }
        ensures answer { Answers (T.at self.now.table.now) (vertical (value_of from) (less (value_of service) bits))
            (answer_of number result) }
        ensures refused { IfErr result (λ fault. RefusedAt (T.at self.now.table.now)
            (vertical (value_of from) (less (value_of service) bits)) fault (steps.new - steps.old)) }
        ensures counts { Counts 2 steps.old steps.new (answer_of number result) }
    {
        let from = curve_at(self.table, from);
        match self.in_packets(service, bits, steps) {
            Ok(packets) => vertical(from, &packets, steps),
            Err(fault) => Err(fault),
        }
    }
}
