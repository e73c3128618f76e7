//! The tally and the gauge of a call: both are numbers of its operands and its window alone.

ghost use Rattle.std.specs.Prelude.{ℕ, ◌≡◌, ◌-◌, ◌^◌, ◌≤◌, ◌↔◌, min, Option, Some, None, MatchOption, IfSome, IsTrue};
ghost use Rattle.rational.specs.Rational.{ℚ};
ghost use Rattle.upp_curve.specs.Unrolled.{count};
ghost use Rattle.upp_limits.specs.Gauges.{IsKnownAtOnce, tallied, tally_of, tally_over, gauge_over};

use crate::call_sizes::call_numbers;
use crate::counts::{count_below, most_below};
use crate::known::is_known_at_once;
use crate::op_kind::{OpKind, Tallied, Window};
use fraction128::Frac;
use upp_curve::Curve;

/// How many unrolled pieces of a curve start before `end`, up to the largest u64.
fn count_of(c: &Curve, end: Frac) -> u64
    ensures { result ≡ min (count c.now end) (2 ^ 64 - 1) }
{
    count_below(c.pieces(), c.tail(), end)
}

/// How many pieces, or pairs of pieces, a call looks at below a window's end, up to the largest u64, also where the
/// answer is known at once. No memory is taken and nothing is unrolled.
pub fn tally_over(op: &OpKind, f: &Curve, g: &Curve, end: Frac) -> u64
    ensures { result ≡ min (tally_over op.now f.now g.now end) (2 ^ 64 - 1) }
{
    match op.tallied() {
        Tallied::FirstAlone => count_of(f, end),
        Tallied::FirstAndOne => count_of(f, end).saturating_add(1),
        Tallied::SumOfBoth => count_of(f, end).saturating_add(count_of(g, end)),
        Tallied::ProductOfBoth => count_of(f, end).saturating_mul(count_of(g, end)),
    }
}

/// A bound of both operands' counts together: their sum or their product.
fn most_of_both(op: &OpKind, f: u64, g: u64) -> Option<u64>
    ensures { IfSome result (λ m. (a b : ℕ) → a ≤ f → b ≤ g → tally_of (tallied op.now) a b ≤ m) }
{
    match op.tallied() {
        Tallied::FirstAlone => Some(f),
        Tallied::FirstAndOne => f.checked_add(1),
        Tallied::SumOfBoth => f.checked_add(g),
        Tallied::ProductOfBoth => f.checked_mul(g),
    }
}

/// A bound of the tally over a window's end, by one division a curve; none where it is very large.
fn most_tally(op: &OpKind, f: &Curve, g: &Curve, end: Frac) -> Option<u64>
    ensures { IfSome result (λ m. tally_over op.now f.now g.now end ≤ m) }
{
    match most_below(f, end) {
        Some(first) => match most_below(g, end) {
            Some(second) => most_of_both(op, first, second),
            None => None,
        },
        None => None,
    }
}

/// Whether a call looks at 2^20 pieces or pairs of pieces below a window's end at most, exactly. They are counted one
/// by one only where a bound of them, which is quicker to make, does not tell. No memory is taken.
pub fn is_few(op: &OpKind, f: &Curve, g: &Curve, end: Frac) -> bool
    ensures { IsTrue result ↔ (tally_over op.now f.now g.now end ≤ 2 ^ 20) }
{
    if let Some(most) = most_tally(op, f, g, end) {
        if most <= 1 << 20 {
            return true;
        }
    }
    tally_over(op, f, g, end) <= 1 << 20
}

/// How many pieces, or pairs of pieces, a call looks at within a window; the largest u64 where it is more. 0 where the
/// answer is known at once, and without a window. No memory is taken and nothing is unrolled. For a horizontal
/// deviation it is that of the operator for curves that rise, which the operator asks for: where one falls somewhere,
/// an answer that is known only because f ends above g at rates of 0 counts as not known at once.
pub fn tally(op: OpKind, f: &Curve, g: &Curve, window: Window) -> u64
    ensures known { IsKnownAtOnce op f.now g.now → result ≡ 0 }
    ensures none { window ≡ None → result ≡ 0 }
    ensures exact { (end : ℚ) → ¬ (IsKnownAtOnce op f.now g.now) → window ≡ Some end
        → result ≡ min (tally_over op f.now g.now end) (2 ^ 64 - 1) }
{
    if is_known_at_once(&op, f, g) {
        return 0;
    }
    match window {
        Some(end) => tally_over(&op, f, g, end),
        None => 0,
    }
}

/// The gauge over a window's end. None where it is 2^128 or more.
fn gauge_over(op: &OpKind, f: &Curve, g: &Curve, end: Frac) -> Option<u128>
    ensures { MatchOption result (2 ^ 128 ≤ gauge_over op.now f.now g.now end)
        (λ k. k ≡ gauge_over op.now f.now g.now end) }
{
    match call_numbers(op, f, g, end) {
        Some(numbers) => Some(numbers.gauge),
        None => None,
    }
}

/// The gauge of a call within a window: where it is below 2^120, no step on the way to the call's answer is too wide.
/// None where it is 2^128 or more; also without a window. 0 where the answer is known at once. No memory is taken. For
/// a horizontal deviation it is that of the operator for curves that rise, as `tally` says.
pub fn gauge(op: OpKind, f: &Curve, g: &Curve, window: Window) -> Option<u128>
    ensures known { IsKnownAtOnce op f.now g.now → result ≡ Some 0 }
    ensures none { ¬ (IsKnownAtOnce op f.now g.now) → window ≡ None → result ≡ None }
    ensures exact { (end : ℚ) → ¬ (IsKnownAtOnce op f.now g.now) → window ≡ Some end
        → MatchOption result (2 ^ 128 ≤ gauge_over op f.now g.now end) (λ k. k ≡ gauge_over op f.now g.now end) }
{
    if is_known_at_once(&op, f, g) {
        return Some(0);
    }
    match window {
        Some(end) => gauge_over(&op, f, g, end),
        None => None,
    }
}
