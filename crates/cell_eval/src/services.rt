//! The curve that serves a queue, by what its server leaves it.

ghost use Rattle.std.specs.Prelude.{◌≡◌, ◌-◌, ◌<◌, ◌≤◌, length, IfErr};
ghost use Rattle.upp_curve.specs.Curve.{value_at};
ghost use Rattle.min_plus.specs.Functions.{IsFinite};
ghost use Rattle.net_cells.specs.declared.cell.Kind.TheVariants.{Higher};
ghost use Rattle.net_cells.specs.Numbered as at;
ghost use Rattle.net_cells.specs.Visits as visiting;
ghost use Rattle.net_cells.specs.Cells.{cell_of};
ghost use Rattle.net_cells.specs.Left.{longest_each, left_of};
ghost use Rattle.net_cells.specs.Meanings.{CellTable};
ghost use Rattle.net_cells.specs.Formulas.{value_of, priority, deficit};
ghost use Rattle.net_cells.specs.CellFormulas as formulas;
ghost use Rattle.net_cells.specs.Answers.{Answers};
ghost use Rattle.net_cells.specs.Refusals.{RefusedAt};
ghost use Rattle.residuals.specs.calls.DrrCalls.{AreQueues};
ghost use Rattle.residuals.specs.calls.InTurn.{DrrRefused};
ghost use Rattle.residuals.specs.left.Left.{EachBefore, left_work};
ghost use Rattle.net_cells.specs.cell_table.Values.{answer_of, meaning_of};
ghost use Rattle.outcomes.specs.Spending.{Counts};
ghost use Rattle.cell_numbers.specs.TableValues.{IsCurveAt};

use crate::inputs::{Answer, Inputs};
use crate::recent::Recent;
use crate::sharing::{copied, shared};
use arrayvec::ArrayVec;
use cell_numbers::{Pick, curve_at, longest_at};
use net_cells::cell_table::{Table, Value};
use net_cells::{Cell, Kind, Leaving, leaves, server};
use net_model::Network;
use outcomes::Steps;
use residuals::drr::drr_service;
use std::alloc::Global;
use std::sync::ledger::Ledger;
use upp_curve::Curve;
use upp_limits::OpFault;

// What is above the curve of the queues before it.
fn above_others<T: Table<Value>, L: Ledger>(
    alloc: Global,
    table: &T,
    net: &Network,
    service: &Curve,
    place: (u32, u32),
    recent: &mut Recent,
    steps: &mut Steps<L>,
) -> Result<Value, OpFault>
    requires finite { IsFinite (value_at service.now) }
    requires above { IsCurveAt (T.at table.now) (cell_of Higher place.0 place.1) }
    ensures answer { Answers (T.at table.now) (priority service.now (value_of (cell_of Higher place.0 place.1))
        (visiting.longest_after net.now place.0 place.1)) (answer_of meaning_of result) }
    ensures refused { IfErr result (λ fault. RefusedAt (T.at table.now)
        (priority service.now (value_of (cell_of Higher place.0 place.1))
        (visiting.longest_after net.now place.0 place.1)) fault (steps.new - steps.old)) }
    ensures counts { Counts 3 steps.old steps.new (answer_of meaning_of result) }
{
    let above = Cell {
        kind: Kind::Higher,
        a: place.0,
        b: place.1,
    };
    let lower = longest_at(net, place.0, Pick::AfterQueue(place.1));
    recent.service_above(alloc, service, curve_at(table, above), lower, steps)
}

// The longest packet of each of the first queues.
fn longest_each(net: &Network, server: u32, queues: u32) -> ArrayVec<u32, 8>
    requires { queues ≤ 8 }
    ensures { result.items ≡ longest_each net.now server queues }
{
    let mut sizes = ArrayVec::new();
    for queue in 0..queues {
        sizes.push(longest_at(net, server, Pick::InQueue(queue)));
    }
    sizes
}

// A share.
fn by_share<L: Ledger>(
    alloc: Global,
    net: &Network,
    service: &Curve,
    quanta: &[u64],
    place: (u32, u32),
    steps: &mut Steps<L>,
) -> Result<Value, OpFault>
    requires finite { IsFinite (value_at service.now) }
    requires queues { AreQueues quanta.now (longest_each net.now place.0 (length quanta.now)) }
    requires queue { place.1 < length quanta.now }
    ensures answer { (at : CellTable) → Answers at (deficit service.now quanta.now
        (longest_each net.now place.0 (length quanta.now)) place.1) (answer_of meaning_of result) }
    ensures refused { IfErr result (λ fault. DrrRefused service.now quanta.now
        (longest_each net.now place.0 (length quanta.now)) place.1 fault (steps.new - steps.old)) }
    ensures counts { Counts 2 steps.old steps.new (answer_of meaning_of result) }
{
    let sizes = longest_each(net, place.0, quanta.len() as u32);
    let made = drr_service(alloc, service, quanta, &sizes, place.1, steps);
    shared(alloc, made)
}

impl<T: Table<Value>> Inputs<'_, T> {
    /// The curve that serves a queue.
    pub(crate) fn queue_service<L: Ledger>(
        &self,
        place: (u32, u32),
        recent: &mut Recent,
        steps: &mut Steps<L>,
    ) -> Answer
        requires queue { place.1 < at.queues self.now.net.now place.0 }
        requires above { EachBefore (IsCurveAt (T.at self.now.table.now))
            (left_of self.now.net.now place.0 place.1 (at.discipline self.now.net.now place.0)) }
        ensures answer { Answers (T.at self.now.table.now)
            (formulas.queue_service self.now.net.now place.0 place.1 (at.discipline self.now.net.now place.0)) (answer_of meaning_of result) }
        ensures refused { IfErr result (λ fault. RefusedAt (T.at self.now.table.now)
            (formulas.queue_service self.now.net.now place.0 place.1 (at.discipline self.now.net.now place.0)) fault (steps.new - steps.old)) }
        ensures counts { Counts (left_work (left_of self.now.net.now place.0 place.1 (at.discipline self.now.net.now place.0)))
            steps.old steps.new (answer_of meaning_of result) }
    {
        match server(self.net, place.0) {
            Some(found) => match leaves(&found.discipline) {
                Leaving::All => shared(self.alloc, copied(&found.service)),
                Leaving::Above => above_others(
                    self.alloc,
                    self.table,
                    self.net,
                    &found.service,
                    place,
                    recent,
                    steps,
                ),
                Leaving::Share { quanta } => {
                    by_share(self.alloc, self.net, &found.service, quanta, place, steps)
                }
            },
            None => unreachable!(),
        }
    }
}
