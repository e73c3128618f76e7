//! The sum of a queue's parts, in a network where flows that come over one link are cut together: the parts are made in
//! their order, and then they are added up.

ghost use Rattle.std.specs.Prelude.{◌≡◌, ◌+◌, ◌-◌, ◌<◌, ◌≤◌, ◌++◌, ℕ, suc, [], All, Ok, IfOk, IfErr, length, map, Some, None};
ghost use Rattle.arrayvec.specs.ArrayVec.{array_vec_len};
ghost use Rattle.rational.specs.Rational.{◌≤ℚ◌};
ghost use Rattle.min_plus.specs.Functions.{zero_q};
ghost use Rattle.upp_limits.specs.declared.op_kind.OpKind.TheVariants.{Sum};
ghost use Rattle.curve_call.specs.Again.{IsAgain};
ghost use Rattle.curve_call.specs.Calls.{Applies};
ghost use Rattle.net_cells.specs.declared.cell.Kind.TheVariants.{In};
ghost use Rattle.net_cells.specs.Cells.{cell_of};
ghost use Rattle.net_cells.specs.QueueParts.{in_part, part_numbers};
ghost use Rattle.net_cells.specs.Order.{at_visit};
ghost use Rattle.net_cells.specs.Meanings.{CellTable, curve};
ghost use Rattle.net_cells.specs.Formulas.{Formula, cut, operators};
ghost use Rattle.net_cells.specs.CellFormulas.{parts_sum, part_sum, sum_of_hops};
ghost use Rattle.net_cells.specs.Answers.{Answers, MakesCurve, SumsOf};
ghost use Rattle.net_cells.specs.Refusals.{RefusedAt, SumsRefused};
ghost use Rattle.net_cells.specs.Work.{parts_work};
ghost use Rattle.net_cells.specs.cell_table.Gives.{Gives};
ghost use Rattle.net_cells.specs.cell_table.Values.{answer_of, meaning_of};
ghost use Rattle.cell_numbers.specs.Chosen.{chosen, visit_list};
ghost use Rattle.cell_numbers.specs.declared.found.Pick.TheVariants.{InPart};
ghost use Rattle.outcomes.specs.Spending.{Counts};
ghost use Rattle.cell_eval.specs.Partial.{IsReady, Adds};
ghost use Rattle.cell_eval.specs.Parts.{curve_of, IsHeld, MakesPart, part_answer, part_work};
ghost use Rattle.cell_eval.specs.Parts.{kept, AreMade, AreRefused};
ghost use Rattle.cell_numbers.specs.TableValues.{IsCurveAt};

use crate::curve_sums::{Partial, flows_sum, nothing};
use crate::inputs::{Answer, Inputs};
use crate::sharing::{again, copied, shared};
use arrayvec::ArrayVec;
use cell_numbers::{Pick, curve_at, link_bucket, longest_at, rate};
use curve_call::intact;
use fraction128::Frac;
use net_cells::cell_table::{Table, Value};
use net_model::Network;
use outcomes::Steps;
use plain_operators::running::{min, sum};
use std::alloc::Global;
use std::sync::ledger::Ledger;
use upp_curve::Curve;
use upp_limits::OpFault;

/// The sums of a queue's parts: of those that enter there, and of those that come from each of 64 servers.
type Parts = ArrayVec<Partial, 65>;

// The curve of a part.
fn curve_of<'a, T: Table<Value>>(table: &'a T, part: &'a Partial) -> &'a Curve
    requires { IsHeld (T.at table.now) part.now }
    ensures { result.now ≡ curve_of (T.at table.now) part.now }
{
    match part {
        Partial::Nothing => unreachable!(),
        Partial::One(cell) => curve_at(table, *cell),
        Partial::Made(made) => made,
    }
}

// ---- one part
// A curve, cut by a link.
fn cut<L: Ledger>(
    alloc: Global,
    flows: &Curve,
    bits: u32,
    rate: Frac,
    steps: &mut Steps<L>,
) -> Result<Curve, OpFault>
    requires { zero_q ≤ℚ rate }
    ensures answer { (at : CellTable) (F : Formula) (server : ℕ) → Answers at F (Ok (curve flows.now)) →
        Answers at (cut F server bits rate) (answer_of curve result) }
    ensures refused { IfErr result (λ fault. (at : CellTable) (F : Formula) (server : ℕ) →
        Answers at F (Ok (curve flows.now)) →
        RefusedAt at (cut F server bits rate) fault (operators F + (steps.new - steps.old))) }
    ensures counts { Counts 1 steps.old steps.new (answer_of curve result) }
{
    match link_bucket(alloc, bits, rate) {
        Ok(link) => intact(min(alloc, flows, &link, steps)),
        Err(fault) => Err(fault),
    }
}

// The sum of a part that comes over a link, cut by that.
fn cut_sum<L: Ledger>(
    alloc: Global,
    net: &Network,
    place: (u32, u32),
    part: u64,
    flows: &Curve,
    steps: &mut Steps<L>,
) -> Result<Partial, OpFault>
    requires link { 1 ≤ part }
    requires few { part ≤ 64 }
    ensures part { (at : CellTable) → 1 ≤ length (in_part net.now place.0 place.1 part) →
        Answers at (sum_of_hops (in_part net.now place.0 place.1 part)) (Ok (curve flows.now)) →
        MakesPart at net.now place.0 place.1 part result }
    ensures refused { IfErr result (λ fault. (at : CellTable) →
        Answers at (sum_of_hops (in_part net.now place.0 place.1 part)) (Ok (curve flows.now)) →
        RefusedAt at (part_sum net.now part (in_part net.now place.0 place.1 part)) fault
        (operators (sum_of_hops (in_part net.now place.0 place.1 part)) + (steps.new - steps.old))) }
    ensures counts { (at : CellTable) → Counts 1 steps.old steps.new (part_answer at result) }
{
    net.keeps();
    let bits = longest_at(net, place.0, Pick::InPart(place.1, part));
    let rate = rate(net, (part - 1) as u32);
    match cut(alloc, flows, bits, rate, steps) {
        Ok(made) => Ok(Partial::Made(made)),
        Err(fault) => Err(fault),
    }
}

// The same, where the part has a hop.
fn cut_part<T: Table<Value>, L: Ledger>(
    inputs: &Inputs<'_, T>,
    flows: Partial,
    place: (u32, u32),
    part: u64,
    steps: &mut Steps<L>,
) -> Result<Partial, OpFault>
    requires link { 1 ≤ part }
    requires few { part ≤ 64 }
    requires ready { IsReady (T.at inputs.now.table.now) flows }
    ensures part { (old : ℕ) → Adds (T.at inputs.now.table.now) [] (map (at_visit In) (in_part inputs.now.net.now place.0 place.1 part))
        old steps.old (Ok flows) → MakesPart (T.at inputs.now.table.now) inputs.now.net.now place.0 place.1 part result }
    ensures refused { IfErr result (λ fault. (old : ℕ) → Adds (T.at inputs.now.table.now) []
        (map (at_visit In) (in_part inputs.now.net.now place.0 place.1 part)) old steps.old (Ok flows) →
        RefusedAt (T.at inputs.now.table.now) (part_sum inputs.now.net.now part (in_part inputs.now.net.now place.0 place.1 part)) fault
        (steps.new - old)) }
    ensures counts { (old : ℕ) → Adds (T.at inputs.now.table.now) [] (map (at_visit In) (in_part inputs.now.net.now place.0 place.1 part))
        old steps.old (Ok flows) → Counts (part_work inputs.now.net.now place.0 place.1 part) old steps.new
        (part_answer (T.at inputs.now.table.now) result) }
{
    match flows {
        Partial::Nothing => Ok(Partial::Nothing),
        Partial::One(cell) => cut_sum(
            inputs.alloc,
            inputs.net,
            place,
            part,
            curve_at(inputs.table, cell),
            steps,
        ),
        Partial::Made(made) => cut_sum(inputs.alloc, inputs.net, place, part, &made, steps),
    }
}

// The sum of a part.
fn part_made<T: Table<Value>, L: Ledger>(
    inputs: &Inputs<'_, T>,
    place: (u32, u32),
    part: u64,
    steps: &mut Steps<L>,
) -> Result<Partial, OpFault>
    requires few { part ≤ 64 }
    requires curves { (i k : ℕ) → chosen inputs.now.net.now place.0 (InPart place.1 part) None i ≡ visit_list i (Some k) →
        IsCurveAt (T.at inputs.now.table.now) (cell_of In i k) }
    ensures part { MakesPart (T.at inputs.now.table.now) inputs.now.net.now place.0 place.1 part result }
    ensures refused { IfErr result (λ fault. RefusedAt (T.at inputs.now.table.now)
        (part_sum inputs.now.net.now part (in_part inputs.now.net.now place.0 place.1 part)) fault (steps.new - steps.old)) }
    ensures counts { Counts (part_work inputs.now.net.now place.0 place.1 part) steps.old steps.new
        (part_answer (T.at inputs.now.table.now) result) }
{
    let pick = Pick::InPart(place.1, part);
    match flows_sum(inputs, place.0, pick, None, steps) {
        Ok(flows) => {
            if part == 0 {
                Ok(flows)
            } else {
                cut_part(inputs, flows, place, part, steps)
            }
        }
        Err(fault) => Err(fault),
    }
}

// ---- all parts
// A part is kept where it has a hop.
fn keep(parts: &mut Parts, part: Partial)
    requires { array_vec_len parts.old < 65 }
    ensures { parts.new.items ≡ parts.old.items ++ kept part }
{
    match part {
        Partial::Nothing => {}
        Partial::One(cell) => parts.push(Partial::One(cell)),
        Partial::Made(made) => parts.push(Partial::Made(made)),
    }
}

// The parts of a queue that have a hop, in their order.
fn parts_made<T: Table<Value>, L: Ledger>(
    inputs: &Inputs<'_, T>,
    place: (u32, u32),
    steps: &mut Steps<L>,
) -> Result<Parts, OpFault>
    requires { (part i k : ℕ) → part ≤ length inputs.now.net.now.servers →
        chosen inputs.now.net.now place.0 (InPart place.1 part) None i ≡ visit_list i (Some k) →
        IsCurveAt (T.at inputs.now.table.now) (cell_of In i k) }
    ensures made { IfOk result (λ parts. AreMade (T.at inputs.now.table.now) inputs.now.net.now place.0 place.1
        (suc (length inputs.now.net.now.servers)) parts.items steps.old steps.new) }
    ensures refused { IfErr result (λ fault. AreRefused (T.at inputs.now.table.now) inputs.now.net.now place.0 place.1 fault
        steps.old steps.new) }
{
    let count = inputs.net.servers().len() as u64 + 1;
    let mut parts = Parts::new();
    for part in 0..count {
        match part_made(inputs, place, part, steps) {
            Ok(made) => keep(&mut parts, made),
            Err(fault) => return Err(fault),
        }
    }
    Ok(parts)
}

// A sum and a part more.
fn part_added<T: Table<Value>, L: Ledger>(
    alloc: Global,
    so_far: &Curve,
    table: &T,
    part: &Partial,
    steps: &mut Steps<L>,
) -> Result<Curve, OpFault>
    requires { IsHeld (T.at table.now) part.now }
    ensures sum { Applies Sum so_far.now (curve_of (T.at table.now) part.now) result }
    ensures count { steps.new ≡ steps.old + 1 }
{
    intact(sum(alloc, so_far, curve_of(table, part), steps))
}

// Two parts or more, added up.
fn many_added<T: Table<Value>, L: Ledger>(
    alloc: Global,
    table: &T,
    parts: &[Partial],
    steps: &mut Steps<L>,
) -> Result<Curve, OpFault>
    requires many { 2 ≤ length parts.now }
    requires held { All (IsHeld (T.at table.now)) parts.now }
    ensures sum { SumsOf (map (curve_of (T.at table.now)) parts.now) (answer_of curve result) }
    ensures refused { IfErr result (λ fault.
        SumsRefused (map (curve_of (T.at table.now)) parts.now) fault (steps.new - steps.old)) }
    ensures counts { Counts (length parts.now - 1) steps.old steps.new result }
{
    let first = curve_of(table, &parts[0]);
    let mut so_far = match part_added(alloc, first, table, &parts[1], steps) {
        Ok(made) => made,
        Err(fault) => return Err(fault),
    };
    for k in 2..parts.len() {
        match part_added(alloc, &so_far, table, &parts[k], steps) {
            Ok(more) => so_far = more,
            Err(fault) => return Err(fault),
        }
    }
    Ok(so_far)
}

// One part alone: a cell's own curve is shared.
fn only<T: Table<Value>>(alloc: Global, table: &T, part: &Partial) -> Result<Value, OpFault>
    requires { IsHeld (T.at table.now) part.now }
    ensures { MakesCurve (IsAgain (curve_of (T.at table.now) part.now)) (answer_of meaning_of result) }
{
    match part {
        Partial::Nothing => unreachable!(),
        Partial::One(cell) => again(table, *cell),
        Partial::Made(made) => shared(alloc, copied(made)),
    }
}

// Parts, added up.
fn added_up<T: Table<Value>, L: Ledger>(
    alloc: Global,
    table: &T,
    parts: &[Partial],
    steps: &mut Steps<L>,
) -> Result<Value, OpFault>
    requires { All (IsHeld (T.at table.now)) parts.now }
    ensures sum { SumsOf (map (curve_of (T.at table.now)) parts.now) (answer_of meaning_of result) }
    ensures refused { IfErr result (λ fault.
        SumsRefused (map (curve_of (T.at table.now)) parts.now) fault (steps.new - steps.old)) }
    ensures counts { Counts (length parts.now - 1) steps.old steps.new (answer_of meaning_of result) }
{
    if parts.is_empty() {
        return shared(alloc, nothing(alloc));
    }
    if parts.len() == 1 {
        return only(alloc, table, &parts[0]);
    }
    let made = many_added(alloc, table, parts, steps);
    shared(alloc, made)
}

impl<T: Table<Value>> Inputs<'_, T> {
    /// The sum of a queue's parts: of the flows that enter there, and of those that come from each server before, cut by the
    /// longest packet and the rate with which they come. The parts are made in the order of these servers, and then they are
    /// added up.
    pub(crate) fn parts_sum<L: Ledger>(&self, place: (u32, u32), steps: &mut Steps<L>) -> Answer
        requires { (part i k : ℕ) → part ≤ length self.now.net.now.servers →
            chosen self.now.net.now place.0 (InPart place.1 part) None i ≡ visit_list i (Some k) →
            IsCurveAt (T.at self.now.table.now) (cell_of In i k) }
        ensures answer { Gives (T.at self.now.table.now) (parts_sum self.now.net.now place.0 place.1 (part_numbers self.now.net.now))
            (answer_of meaning_of result) }
        ensures refused { IfErr result (λ fault. RefusedAt (T.at self.now.table.now)
            (parts_sum self.now.net.now place.0 place.1 (part_numbers self.now.net.now)) fault (steps.new - steps.old)) }
        ensures counts { Counts (parts_work self.now.net.now place.0 place.1) steps.old steps.new (answer_of meaning_of result) }
    {
        match parts_made(self, place, steps) {
            Ok(parts) => added_up(self.alloc, self.table, &parts, steps),
            Err(fault) => Err(fault),
        }
    }
}
