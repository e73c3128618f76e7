//! The service along a path: those of its hops, all but the last in whole packets.

ghost use Rattle.std.specs.Prelude.{◌≡◌, ◌+◌, ◌-◌, ◌*◌, ◌<◌, ◌≤◌, ℕ, Ok, IfErr};
ghost use Rattle.upp_limits.specs.declared.op_kind.OpKind.TheVariants.{Convolve};
ghost use Rattle.net_cells.specs.declared.cell.Kind.TheVariants.{Residual};
ghost use Rattle.net_cells.specs.Numbered as at;
ghost use Rattle.net_cells.specs.Cells.{cell_of};
ghost use Rattle.net_cells.specs.Meanings.{curve};
ghost use Rattle.net_cells.specs.Formulas.{Formula, value_of, made, operators};
ghost use Rattle.net_cells.specs.CellFormulas.{less, packets_to, served_to};
ghost use Rattle.net_cells.specs.Answers.{Answers};
ghost use Rattle.net_cells.specs.Refusals.{RefusedAt, Stops};
ghost use Rattle.net_cells.specs.cell_table.Gives.{Gives};
ghost use Rattle.net_cells.specs.cell_table.Values.{answer_of, meaning_of};
ghost use Rattle.outcomes.specs.Spending.{Counts};
ghost use Rattle.cell_numbers.specs.Shapes.{Serving};
ghost use Rattle.cell_numbers.specs.TableValues.{HasCurve};

use crate::inputs::{Answer, Inputs};
use crate::sharing::{again, shared};
use cell_numbers::{curve_at, packet};
use curve_call::intact;
use curve_conv::convolve;
use net_cells::cell_table::{Table, Value};
use net_cells::{Cell, Kind, hops};
use outcomes::Steps;
use std::sync::ledger::Ledger;
use upp_curve::Curve;
use upp_limits::OpFault;

macro_rules! residual {
    ($flow:expr, $hop:expr) => {
        Cell {
            kind: Kind::Residual,
            a: $flow,
            b: $hop,
        }
    };
}

impl<T: Table<Value>> Inputs<'_, T> {
    // A service and a cell's in whole packets after it.
    fn with_hop<L: Ledger>(
        &self,
        so_far: &Curve,
        cell: Cell,
        bits: u32,
        steps: &mut Steps<L>,
    ) -> Result<Curve, OpFault>
        requires { HasCurve (T.at self.now.table.now) cell Serving }
        ensures answer { (F : Formula) → Answers (T.at self.now.table.now) F (Ok (curve so_far.now)) →
            Answers (T.at self.now.table.now) (made Convolve F (less (value_of cell) bits)) (answer_of curve result) }
        ensures refused { IfErr result (λ fault. (F : Formula) → Answers (T.at self.now.table.now) F (Ok (curve so_far.now)) →
            RefusedAt (T.at self.now.table.now) (made Convolve F (less (value_of cell) bits)) fault
            (operators F + (steps.new - steps.old))) }
        ensures counts { Counts 2 steps.old steps.new (answer_of curve result) }
    {
        match self.in_packets(cell, bits, steps) {
            Ok(next) => intact(convolve(self.alloc, so_far, &next, steps)),
            Err(fault) => Err(fault),
        }
    }

    // The services of the hops up to one, each in whole packets.
    fn to_hop<L: Ledger>(
        &self,
        flow: u32,
        last: u32,
        steps: &mut Steps<L>,
    ) -> Result<Curve, OpFault>
        requires { (j : ℕ) → j ≤ last → HasCurve (T.at self.now.table.now) (cell_of Residual flow j) Serving }
        ensures answer { Answers (T.at self.now.table.now) (packets_to self.now.net.now flow last) (answer_of curve result) }
        ensures refused { IfErr result (λ fault. RefusedAt (T.at self.now.table.now) (packets_to self.now.net.now flow last) fault
            (steps.new - steps.old)) }
        ensures counts { Counts (2 * last + 1) steps.old steps.new (answer_of curve result) }
    {
        let bits = packet(self.net, flow);
        let mut so_far = match self.in_packets(residual!(flow, 0), bits, steps) {
            Ok(made) => made,
            Err(fault) => return Err(fault),
        };
        for hop in 0..last {
            let next = residual!(flow, hop + 1);
            match self.with_hop(&so_far, next, bits, steps) {
                Ok(more) => so_far = more,
                Err(fault) => return Err(fault),
            }
        }
        Ok(so_far)
    }

    // The same and the hop after them, which is not in whole packets.
    fn past_hop<L: Ledger>(&self, flow: u32, last: u32, steps: &mut Steps<L>) -> Answer
        requires last { last < 16 }
        requires serves { (j : ℕ) → j ≤ last + 1 → HasCurve (T.at self.now.table.now) (cell_of Residual flow j) Serving }
        ensures answer { Answers (T.at self.now.table.now) (made Convolve (packets_to self.now.net.now flow last)
            (value_of (cell_of Residual flow (last + 1)))) (answer_of meaning_of result) }
        ensures refused { IfErr result (λ fault. RefusedAt (T.at self.now.table.now) (made Convolve (packets_to self.now.net.now flow last)
            (value_of (cell_of Residual flow (last + 1)))) fault (steps.new - steps.old)) }
        ensures counts { Counts (2 * last + 2) steps.old steps.new (answer_of meaning_of result) }
    {
        match self.to_hop(flow, last, steps) {
            Ok(packets) => {
                let end = curve_at(self.table, residual!(flow, last + 1));
                let made = intact(convolve(self.alloc, &packets, end, steps));
                shared(self.alloc, made)
            }
            Err(fault) => Err(fault),
        }
    }

    /// The service along a path.
    pub(crate) fn path_service<L: Ledger>(&self, flow: u32, steps: &mut Steps<L>) -> Answer
        requires some { 0 < at.hops self.now.net.now flow }
        requires serves { (j : ℕ) → j < at.hops self.now.net.now flow → HasCurve (T.at self.now.table.now) (cell_of Residual flow j) Serving }
        ensures answer { Gives (T.at self.now.table.now) (served_to self.now.net.now flow (at.hops self.now.net.now flow - 1))
            (answer_of meaning_of result) }
        ensures refused { IfErr result (λ fault. Stops (T.at self.now.table.now) (served_to self.now.net.now flow (at.hops self.now.net.now flow - 1))
            fault (steps.new - steps.old)) }
        ensures counts { Counts (2 * (at.hops self.now.net.now flow - 1)) steps.old steps.new (answer_of meaning_of result) }
    {
        let count = hops(self.net, flow);
        if count == 1 {
            again(self.table, residual!(flow, 0))
        } else {
            self.past_hop(flow, count - 2, steps)
        }
    }
}
