//! Sums of the curves of cells, one cell after the other: no memory is taken but for the curves themselves.

ghost use Rattle.std.specs.Prelude.{◌≡◌, ◌<◌, ℕ, List, [], ◌∷◌, length, map, Some, Ok, IfOk, OnOk, IfSome};
ghost use Rattle.std.specs.List.{range_with_len};
ghost use Rattle.upp_limits.specs.declared.op_kind.OpKind.TheVariants.{Sum};
ghost use Rattle.curve_call.specs.Again.{IsAgain};
ghost use Rattle.curve_call.specs.Calls.{IsApplied};
ghost use Rattle.plain_operators.specs.pointwise.Straight.{straight_curve};
ghost use Rattle.net_cells.specs.declared.cell.Cell.{Cell};
ghost use Rattle.net_cells.specs.declared.cell.Kind.TheVariants.{In, Total};
ghost use Rattle.net_cells.specs.Numbered.{zero_curve};
ghost use Rattle.net_cells.specs.Meanings.{CellTable};
ghost use Rattle.net_cells.specs.Cells.{cell_of};
ghost use Rattle.net_cells.specs.Order.{at_visit};
ghost use Rattle.net_cells.specs.CellFormulas.{sum_of_cells};
ghost use Rattle.net_cells.specs.cell_table.Gives.{Gives};
ghost use Rattle.net_cells.specs.cell_table.Values.{answer_of, meaning_of};
ghost use Rattle.cell_numbers.specs.Chosen.{chosen, all_chosen, visit_list};
ghost use Rattle.cell_eval.specs.Partial.{IsPartial, IsReady, IsSumOf, IsSummed, Adds, added_curve, partial_of, added_made, in_place, sum_made};
ghost use Rattle.cell_numbers.specs.TableValues.{IsCurveAt};

use crate::inputs::Inputs;
use crate::sharing::{again, shared};
use cell_numbers::{Pick, chosen_at, curve_at};
use curve_call::intact;
use curve_library::bucket;
use fraction128::Frac;
use net_cells::cell_table::{Table, Value};
use net_cells::{Cell, Kind};
use outcomes::Steps;
use plain_operators::pointwise::{Straight, line_curve, small_total, straight_of};
use plain_operators::running::sum;
use std::alloc::Global;
use std::sync::ledger::Ledger;
use upp_curve::Curve;
use upp_limits::OpFault;

/// The sum of no cell, of one, or of more.
#[derive(Drop, Default)]
pub enum Partial {
    #[default]
    Nothing,
    One(Cell),
    Made(Curve),
}

/// The sum of two cells or more. Of curves of one line each it is kept as its numbers alone, while these are small, so that
/// no curve is made but the last. A sum that is a curve stays one.
#[derive(Drop)]
pub(crate) enum Added {
    Lines(Straight),
    Whole(Curve),
}

/// A sum that grows: of no cell, of one, or of more.
#[derive(Drop)]
pub(crate) enum Growing {
    Empty,
    Single(Cell),
    More(Added),
}

/// The curve that is 0 at each time.
pub(crate) fn nothing(alloc: Global) -> Result<Curve, OpFault>
    ensures { IsAgain zero_curve result }
{
    match bucket(alloc, Frac::zero(), Frac::zero()) {
        Ok(made) => Ok(made),
        Err(_) => Err(OpFault::NoMemory),
    }
}

// The sum of a curve and a cell's.
fn with_cell<T: Table<Value>, L: Ledger>(
    inputs: &Inputs<'_, T>,
    so_far: &Curve,
    cell: Cell,
    steps: &mut Steps<L>,
) -> Result<Curve, OpFault>
    requires { IsCurveAt (T.at inputs.now.table.now) cell }
    ensures { (cells : List Cell) → IsSummed (T.at inputs.now.table.now) cells so_far.now →
        Adds (T.at inputs.now.table.now) cells (cell ∷ []) steps.old steps.new (sum_made result) }
{
    intact(sum(inputs.alloc, so_far, curve_at(inputs.table, cell), steps))
}

// The numbers of a sum and a curve more, where both are lines of small numbers.
fn line_more(so_far: &Straight, next: &Curve) -> Option<Straight>
    ensures { IfSome result (λ s. IsApplied Sum (straight_curve so_far.now) next.now (straight_curve s)) }
{
    match straight_of(next) {
        Some(line) => small_total(so_far, &line),
        None => None,
    }
}

// The same of two curves.
fn line_total(so_far: &Curve, next: &Curve) -> Option<Straight>
    ensures { IfSome result (λ s. IsApplied Sum so_far.now next.now (straight_curve s)) }
{
    match straight_of(so_far) {
        Some(line) => line_more(&line, next),
        None => None,
    }
}

// A sum of which the curve was made.
fn as_whole(made: Result<Curve, OpFault>) -> Result<Added, OpFault>
    ensures { added_made result ≡ sum_made made }
{
    match made {
        Ok(curve) => Ok(Added::Whole(curve)),
        Err(fault) => Err(fault),
    }
}

// A cell's curve more after a curve.
fn after_curve<T: Table<Value>, L: Ledger>(
    inputs: &Inputs<'_, T>,
    so_far: &Curve,
    cell: Cell,
    steps: &mut Steps<L>,
) -> Result<Added, OpFault>
    requires { IsCurveAt (T.at inputs.now.table.now) cell }
    ensures { (cells : List Cell) → IsSummed (T.at inputs.now.table.now) cells so_far.now →
        Adds (T.at inputs.now.table.now) cells (cell ∷ []) steps.old steps.new (added_made result) }
{
    match line_total(so_far, curve_at(inputs.table, cell)) {
        Some(total) => {
            steps.tick();
            Ok(Added::Lines(total))
        }
        None => as_whole(with_cell(inputs, so_far, cell, steps)),
    }
}

// The curve of a sum that is kept as its numbers.
fn made_of_lines(alloc: Global, lines: &Straight) -> Result<Curve, OpFault>
    ensures { IsAgain (straight_curve lines.now) result }
{
    match line_curve(alloc, lines) {
        Ok(made) => Ok(made),
        Err(_) => Err(OpFault::NoMemory),
    }
}

// A cell's curve more after a sum that is kept as its numbers: where it is no such curve, that of the sum is made first.
fn after_lines<T: Table<Value>, L: Ledger>(
    inputs: &Inputs<'_, T>,
    so_far: &Straight,
    cell: Cell,
    steps: &mut Steps<L>,
) -> Result<Added, OpFault>
    requires { IsCurveAt (T.at inputs.now.table.now) cell }
    ensures { (cells : List Cell) → IsSumOf (T.at inputs.now.table.now) cells (straight_curve so_far.now) →
        Adds (T.at inputs.now.table.now) cells (cell ∷ []) steps.old steps.new (added_made result) }
{
    match line_more(so_far, curve_at(inputs.table, cell)) {
        Some(total) => {
            steps.tick();
            Ok(Added::Lines(total))
        }
        None => match made_of_lines(inputs.alloc, so_far) {
            Ok(made) => as_whole(with_cell(inputs, &made, cell, steps)),
            Err(fault) => Err(fault),
        },
    }
}

// A cell's curve more after a sum of two cells or more.
fn after_added<T: Table<Value>, L: Ledger>(
    inputs: &Inputs<'_, T>,
    so_far: &Added,
    cell: Cell,
    steps: &mut Steps<L>,
) -> Result<Added, OpFault>
    requires { IsCurveAt (T.at inputs.now.table.now) cell }
    ensures { (cells : List Cell) → IsSumOf (T.at inputs.now.table.now) cells (added_curve so_far.now) →
        Adds (T.at inputs.now.table.now) cells (cell ∷ []) steps.old steps.new (added_made result) }
{
    match so_far {
        Added::Lines(lines) => after_lines(inputs, lines, cell, steps),
        Added::Whole(curve) => as_whole(with_cell(inputs, curve, cell, steps)),
    }
}

// A sum that was made, in place of the one before it; where it was refused that one stays.
fn replace(so_far: &mut Growing, made: Result<Added, OpFault>) -> Result<(), OpFault>
    ensures made { in_place (partial_of so_far.new) result ≡ added_made made }
    ensures ready { (at : CellTable) → OnOk result (IsReady at (partial_of so_far.new)) }
{
    match made {
        Ok(added) => {
            *so_far = Growing::More(added);
            Ok(())
        }
        Err(fault) => Err(fault),
    }
}

// A cell more in a sum.
fn add<T: Table<Value>, L: Ledger>(
    inputs: &Inputs<'_, T>,
    so_far: &mut Growing,
    cell: Cell,
    steps: &mut Steps<L>,
) -> Result<(), OpFault>
    requires cell { IsCurveAt (T.at inputs.now.table.now) cell }
    requires ready { IsReady (T.at inputs.now.table.now) (partial_of so_far.old) }
    ensures sum { (cells : List Cell) → IsPartial (T.at inputs.now.table.now) cells (partial_of so_far.old) →
        Adds (T.at inputs.now.table.now) cells (cell ∷ []) steps.old steps.new (in_place (partial_of so_far.new) result) }
    ensures ready { OnOk result (IsReady (T.at inputs.now.table.now) (partial_of so_far.new)) }
{
    match so_far {
        Growing::Empty => {
            *so_far = Growing::Single(cell);
            Ok(())
        }
        Growing::Single(first) => {
            let made = after_curve(inputs, curve_at(inputs.table, *first), cell, steps);
            replace(so_far, made)
        }
        Growing::More(first) => {
            let made = after_added(inputs, first, cell, steps);
            replace(so_far, made)
        }
    }
}

// The curve of a sum of two cells or more.
fn curve_made(alloc: Global, whole: Added) -> Result<Curve, OpFault>
    ensures { IsAgain (added_curve whole) result }
{
    match whole {
        Added::Lines(lines) => made_of_lines(alloc, &lines),
        Added::Whole(made) => Ok(made),
    }
}

// The sum that has grown, with its curve made.
fn grown(alloc: Global, so_far: Growing) -> Result<Partial, OpFault>
    ensures sum { (at : CellTable) (cells : List Cell) (old new : ℕ) → Adds at [] cells old new (Ok (partial_of so_far)) →
        Adds at [] cells old new result }
    ensures ready { (at : CellTable) → IsReady at (partial_of so_far) → IfOk result (IsReady at) }
{
    match so_far {
        Growing::Empty => Ok(Partial::Nothing),
        Growing::Single(cell) => Ok(Partial::One(cell)),
        Growing::More(whole) => match curve_made(alloc, whole) {
            Ok(made) => Ok(Partial::Made(made)),
            Err(fault) => Err(fault),
        },
    }
}

/// The value of a sum of cells: of none the curve that is 0, of one that cell's own curve, shared.
pub fn finished<T: Table<Value>>(alloc: Global, table: &T, whole: Partial) -> Result<Value, OpFault>
    requires ready { IsReady (T.at table.now) whole }
    ensures { (cells : List Cell) → IsPartial (T.at table.now) cells whole →
        Gives (T.at table.now) (sum_of_cells cells) (answer_of meaning_of result) }
{
    match whole {
        Partial::Nothing => shared(alloc, nothing(alloc)),
        Partial::One(cell) => again(table, cell),
        Partial::Made(made) => shared(alloc, Ok(made)),
    }
}

// The flow's curve at its hop that is meant more in a sum, if there is one.
fn add_flow<T: Table<Value>, L: Ledger>(
    inputs: &Inputs<'_, T>,
    so_far: &mut Growing,
    server: u32,
    pick: Pick,
    except: Option<u32>,
    flow: u32,
    steps: &mut Steps<L>,
) -> Result<(), OpFault>
    requires curves { (k : ℕ) → chosen inputs.now.net.now server pick except flow ≡ visit_list flow (Some k) →
        IsCurveAt (T.at inputs.now.table.now) (cell_of In flow k) }
    requires ready { IsReady (T.at inputs.now.table.now) (partial_of so_far.old) }
    ensures sum { (cells : List Cell) → IsPartial (T.at inputs.now.table.now) cells (partial_of so_far.old) → Adds (T.at inputs.now.table.now) cells
        (map (at_visit In) (chosen inputs.now.net.now server pick except flow)) steps.old steps.new (in_place (partial_of so_far.new) result) }
    ensures ready { OnOk result (IsReady (T.at inputs.now.table.now) (partial_of so_far.new)) }
{
    match chosen_at(inputs.net, flow, server, pick, except) {
        Some(hop) => {
            let cell = Cell {
                kind: Kind::In,
                a: flow,
                b: hop,
            };
            add(inputs, so_far, cell, steps)
        }
        None => Ok(()),
    }
}

/// The sum of the curves with which flows come to the hops at a server that are meant, one flow left out.
pub(crate) fn flows_sum<T: Table<Value>, L: Ledger>(
    inputs: &Inputs<'_, T>,
    server: u32,
    pick: Pick,
    except: Option<u32>,
    steps: &mut Steps<L>,
) -> Result<Partial, OpFault>
    requires { (i k : ℕ) → chosen inputs.now.net.now server pick except i ≡ visit_list i (Some k) →
        IsCurveAt (T.at inputs.now.table.now) (cell_of In i k) }
    ensures sum { Adds (T.at inputs.now.table.now) [] (map (at_visit In)
        (all_chosen inputs.now.net.now server pick except (length inputs.now.net.now.flows))) steps.old steps.new result }
    ensures ready { IfOk result (IsReady (T.at inputs.now.table.now)) }
{
    let count = inputs.net.flows().len() as u32;
    let mut so_far = Growing::Empty;
    for flow in 0..count {
        match add_flow(inputs, &mut so_far, server, pick, except, flow, steps) {
            Ok(()) => {}
            Err(fault) => return Err(fault),
        }
    }
    grown(inputs.alloc, so_far)
}

/// The sum of the curves of the first queues of a server.
pub(crate) fn queues_sum<T: Table<Value>, L: Ledger>(
    inputs: &Inputs<'_, T>,
    server: u32,
    queues: u32,
    steps: &mut Steps<L>,
) -> Result<Partial, OpFault>
    requires { (q : ℕ) → q < queues → IsCurveAt (T.at inputs.now.table.now) (cell_of Total server q) }
    ensures sum { Adds (T.at inputs.now.table.now) []
        (map (cell_of Total server) (range_with_len 0 queues)) steps.old steps.new result }
    ensures ready { IfOk result (IsReady (T.at inputs.now.table.now)) }
{
    let mut so_far = Growing::Empty;
    for queue in 0..queues {
        let cell = Cell {
            kind: Kind::Total,
            a: server,
            b: queue,
        };
        match add(inputs, &mut so_far, cell, steps) {
            Ok(()) => {}
            Err(fault) => return Err(fault),
        }
    }
    grown(inputs.alloc, so_far)
}
