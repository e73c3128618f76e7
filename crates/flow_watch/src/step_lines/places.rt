//! How many packets keep a line over a stair, by the steps that their bits fill, in one pass that looks up the least lag of those before.

ghost use Rattle.std.specs.Prelude.{◌≡◌, ℕ, ◌*◌, ◌<◌, ◌≤◌, ◌^◌, pos, length, IfOk, IfSome, IsTrue};
ghost use Rattle.std.specs.List.Sorted.{IsSorted};
ghost use Rattle.rational.specs.Ratio.{cmp_q};
ghost use Rattle.rational.specs.Rational.{ℚ, int, ◌+ℚ◌, ◌≤ℚ◌, ◌<ℚ◌, lt_q, le_q};
ghost use Rattle.run_laws.specs.Cards.{whole};
ghost use Rattle.flow_watch.specs.step_lines.Lines.{KeepsLine};
ghost use Rattle.flow_watch.specs.step_lines.Lows.{Covers};
ghost use Rattle.flow_watch.specs.step_lines.Places.{IsFill, IsBetween, IsPlaced, ArePlaced, KeepPlaces, IsIn};

use crate::step_lines::lows::{least_between, lower};
use crate::watch_laws::Entering;
use fraction128::{Frac, Wide, greater, is_less, lesser};
use std::alloc::{AllocError, Global};

/// How many whole steps an amount fills, and what part of one more.
#[derive(Clone, Copy)]
pub(crate) struct Fill {
    pub(crate) steps: Frac,
    pub(crate) over: Frac,
}

/// A packet against a line: what part of a step is over before it and after it, and by how many whole steps the bits before it
/// lag behind those that the rate has by its time, and the bits up to it, with those that are spared, lead them.
#[derive(Clone, Copy)]
pub(crate) struct Placed {
    pub(crate) before: Frac,
    pub(crate) lag: Frac,
    pub(crate) after: Frac,
    pub(crate) lead: Frac,
}

/// So many bits as a fraction.
pub fn whole_of(bits: u128) -> Frac
    requires { bits < 2 ^ 127 }
    ensures { result ≡ whole bits }
{
    Frac::from_whole(bits as i128)
}

/// What an amount fills, if its numbers fit.
fn fill_of(height: Frac, amount: Frac) -> Option<Fill>
    requires height { int (pos 0) <ℚ height }
    requires some { int (pos 0) ≤ℚ amount }
    ensures { IfSome result (IsFill height amount) }
{
    let Ok(ratio) = Frac::div(amount, height) else {
        return None;
    };
    let steps = ratio.whole_part();
    let Ok(over) = Frac::sub(ratio, steps) else {
        return None;
    };
    Some(Fill { steps, over })
}

/// A packet by what is filled before it and after it, where its steps fit.
fn placed_at(before: Fill, after: Fill, rate: Frac, time: Frac) -> Result<Placed, Wide>
    ensures { IfOk result (IsBetween before after rate time) }
{
    let risen = Frac::mul(rate, time)?;
    let lag = Frac::sub(before.steps, risen)?;
    let lead = Frac::sub(after.steps, risen)?;
    Ok(Placed {
        before: before.over,
        lag,
        after: after.over,
        lead,
    })
}

/// A packet that enters at a time: so much comes before it, and so much up to it; if its numbers fit.
fn placed_of(height: Frac, rate: Frac, time: Frac, under: Frac, upto: Frac) -> Option<Placed>
    requires height { int (pos 0) <ℚ height }
    requires under { int (pos 0) ≤ℚ under }
    requires upto { int (pos 0) ≤ℚ upto }
    ensures { IfSome result (IsPlaced height rate time under upto) }
{
    let Some(before) = fill_of(height, under) else {
        return None;
    };
    let Some(after) = fill_of(height, upto) else {
        return None;
    };
    match placed_at(before, after, rate, time) {
        Ok(placed) => Some(placed),
        Err(_) => None,
    }
}

/// All packets, if their numbers fit and there is memory for them.
fn places_of(
    alloc: Global,
    entries: &[Entering],
    height: Frac,
    spare: Frac,
    rate: Frac,
) -> Option<Vec<Placed>>
    requires high { int (pos 0) <ℚ height }
    requires some { int (pos 0) ≤ℚ spare }
    ensures { IfSome result (λ v. ArePlaced height spare rate entries.now v.items (length entries.now)) }
{
    let mut bits: u128 = 0;
    let mut places = Vec::new(alloc);
    for entering in entries {
        let upto = bits + entering.bits as u128;
        let Ok(most) = Frac::add(whole_of(upto), spare) else {
            return None;
        };
        let Some(placed) = placed_of(height, rate, entering.time, whole_of(bits), most) else {
            return None;
        };
        let Ok(_) = places.push(placed) else {
            return None;
        };
        bits = upto;
    }
    Some(places)
}

/// What parts of a step are over before the packets, in order and each once.
fn parts_of(alloc: Global, places: &[Placed]) -> Result<Vec<Frac>, AllocError>
    ensures { IfOk result (λ v. IsSorted cmp_q v.items) }
{
    let mut parts = Vec::new(alloc);
    for placed in places {
        parts.push(placed.before)?;
    }
    parts.sort()?;
    parts.dedup();
    Ok(parts)
}

/// The greatest lead, and at least 0.
fn greatest_lead(places: &[Placed]) -> Frac {
    let mut most = Frac::zero();
    for placed in places {
        most = greater(most, placed.lead);
    }
    most
}

/// Lets in the lag of a packet at its part of a step, if that is one of the parts.
fn let_in(parts: &[Frac], nodes: &mut [Frac], placed: &Placed) -> bool
    requires { length nodes.old ≡ 2 * length parts.now }
    ensures is_in { IsTrue result → IsIn parts.now nodes.new placed.now }
    ensures keeps { (k : ℕ) (v : ℚ) → Covers nodes.old v k → Covers nodes.new v k }
{
    match parts.binary_search(&placed.before) {
        Ok(place) => {
            lower(nodes, parts.len() + place, placed.lag);
            true
        }
        Err(_) => false,
    }
}

/// Whether a number is below another: a test of each number of a list.
pub fn is_under(part: &Frac, over: Frac) -> bool
    ensures { result ≡ lt_q part.now over }
{
    is_less(*part, over)
}

/// Whether a is at most b.
pub fn is_at_most(a: Frac, b: Frac) -> bool
    ensures { result ≡ le_q a b }
{
    a <= b
}

/// The least lag that was let in at a part of a step below `over`, or `most` where that is less.
fn least_under(parts: &[Frac], nodes: &[Frac], over: Frac, most: Frac) -> Frac
    requires nodes { length nodes.now ≡ 2 * length parts.now }
    requires some { 0 < length parts.now }
    requires rise { IsSorted cmp_q parts.now }
    ensures { (a : Placed) → IsIn parts.now nodes.now a → a.before <ℚ over → result ≤ℚ a.lag }
{
    let count = parts.partition_point(|part| is_under(part, over));
    least_between(nodes, parts.len(), parts.len() + count, most)
}

/// Whether a lead is seen to be at most a lag and the slack.
fn is_within(lead: Frac, lag: Frac, slack: Frac) -> bool
    ensures { IsTrue result → lead ≤ℚ lag +ℚ slack }
{
    let Ok(most) = Frac::add(lag, slack) else {
        return false;
    };
    if is_less(most, lead) {
        return false;
    }
    true
}

/// How many of the first packets are seen to be within the slack of each before them and of themselves: of those that have less
/// over before them than is over after the later one, and of the others by one step more. `wide` is the slack and that step.
fn within_upto(
    places: &[Placed],
    slack: Frac,
    wide: Frac,
    parts: &[Frac],
    nodes: &mut [Frac],
) -> usize
    requires nodes { length nodes.old ≡ 2 * length parts.now }
    requires rise { IsSorted cmp_q parts.now }
    ensures in_range { result ≤ length places.now }
    ensures keep { KeepPlaces slack wide places.now result }
{
    let mut least = Frac::zero();
    for (number, placed) in places.iter().enumerate() {
        if !let_in(parts, nodes, placed) {
            return number;
        }
        least = lesser(least, placed.lag);
        if !is_within(placed.lead, least, wide) {
            return number;
        }
        let near = least_under(parts, nodes, placed.after, placed.lead);
        if !is_within(placed.lead, near, slack) {
            return number;
        }
    }
    places.len()
}

/// How many of the first packets are seen to come no faster than the line, in whole steps of which some bits are spared, if that is
/// looked at: not where memory is refused or a number does not fit. It sorts once, and looks up once for each packet.
pub fn seen_upto(
    alloc: Global,
    entries: &[Entering],
    height: Frac,
    spare: Frac,
    slack: Frac,
    rate: Frac,
) -> Option<usize>
    requires high { int (pos 0) <ℚ height }
    requires some { int (pos 0) ≤ℚ spare }
    ensures { IfSome result (KeepsLine height spare slack rate entries.now) }
{
    let Some(places) = places_of(alloc, entries, height, spare, rate) else {
        return None;
    };
    let laid = places.as_slice();
    let Ok(parts) = parts_of(alloc, laid) else {
        return None;
    };
    let Ok(mut nodes) = vec![in alloc; greatest_lead(laid); 2 * parts.len()] else {
        return None;
    };
    let Ok(wide) = Frac::add(slack, Frac::one()) else {
        return None;
    };
    let count = within_upto(laid, slack, wide, &parts, &mut nodes);
    Some(count)
}
