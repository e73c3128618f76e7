//! Listed pieces as they are written, and the tests of their numbers and their order.

ghost use Rattle.std.specs.Prelude.{◌≡◌, ◌↔◌, IsTrue};
ghost use Rattle.std.specs.List.{AllByRecursion};
ghost use Rattle.rational.specs.Rational.{◌+ℚ◌, ◌≤ℚ◌, ◌<ℚ◌};
ghost use Rattle.min_plus.specs.Functions.{zero_q};
ghost use Rattle.upp_curve.specs.affine_segment.Pieces.{RisesFrom, StartsAtZero};
ghost use Rattle.curve_library.specs.Listed.{IsNonnegText, IsNonnegTail, HasLength, StartsBelow, text_pieces};

use crate::signs::{is_negative, is_positive};
use fraction128::{Frac, is_less};
use upp_limits::is_after;

/// A piece: its start, the value at it, the value just after it, and the slope from there to the next start.
#[derive(Debug, Clone, Copy)]
pub struct PieceText {
    pub x: Frac,
    pub at: Frac,
    pub after: Frac,
    pub slope: Frac,
}

/// A tail: from the rank on each `period` later the curve is `rise` higher.
#[derive(Debug, Clone, Copy)]
pub struct TailText {
    pub rank: Frac,
    pub period: Frac,
    pub rise: Frac,
}

/// What a listed curve is for.
#[derive(Debug, Clone, Copy, PartialEq, Eq)]
pub enum UseAs {
    /// It bounds what arrives: it has to rise.
    Arrival,
    /// It bounds what is served: it has to rise, to be continuous and to be 0 at 0.
    Service,
}

fn is_nonneg_text(p: &PieceText) -> bool
    ensures { IsTrue result ↔ IsNonnegText p.now }
{
    if is_negative(p.x) {
        return false;
    }
    if is_negative(p.at) {
        return false;
    }
    !is_negative(p.after)
}

/// Whether no start and no value is below 0.
pub(crate) fn are_nonneg(pieces: &[PieceText]) -> bool
    ensures { IsTrue result ↔ AllByRecursion IsNonnegText pieces.now }
{
    for p in pieces {
        if !is_nonneg_text(p) {
            return false;
        }
    }
    true
}

/// Whether neither the rank nor the rise is below 0.
pub(crate) fn is_nonneg_tail(tail: &Option<TailText>) -> bool
    ensures { IsTrue result ↔ IsNonnegTail tail.now }
{
    match tail {
        None => true,
        Some(t) => {
            if is_negative(t.rank) {
                return false;
            }
            !is_negative(t.rise)
        }
    }
}

/// Whether the period is above 0.
pub(crate) fn has_length(tail: &Option<TailText>) -> bool
    ensures { IsTrue result ↔ HasLength tail.now }
{
    match tail {
        None => true,
        Some(t) => is_positive(t.period),
    }
}

/// Whether each start is after the one before it, and the first after this.
fn rise_after(first: Frac, rest: &[PieceText]) -> bool
    ensures { IsTrue result ↔ RisesFrom first (text_pieces rest.now) }
{
    let mut last = first;
    for p in rest {
        if !is_less(last, p.x) {
            return false;
        }
        last = p.x;
    }
    true
}

/// Whether the first start is 0 and the others rise from there.
pub(crate) fn starts_rise(pieces: &[PieceText]) -> bool
    ensures { IsTrue result ↔ StartsAtZero (text_pieces pieces.now) }
{
    match pieces {
        [] => false,
        [first, rest @ ..] => {
            if first.x == Frac::zero() {
                return rise_after(first.x, rest);
            }
            false
        }
    }
}

/// Whether each start is before rank + period, also where that sum does not fit.
fn are_before(pieces: &[PieceText], rank: Frac, period: Frac) -> bool
    requires rank { zero_q ≤ℚ rank }
    requires period { zero_q ≤ℚ period }
    ensures { IsTrue result ↔ AllByRecursion (λ p. p.x <ℚ rank +ℚ period) pieces.now }
{
    for p in pieces {
        if !is_after(rank, 1, period, p.x) {
            return false;
        }
    }
    true
}

/// Whether each start is before the end of the first period.
pub(crate) fn starts_below(pieces: &[PieceText], tail: &Option<TailText>) -> bool
    requires nonneg { IsNonnegTail tail.now }
    requires length { HasLength tail.now }
    ensures { IsTrue result ↔ StartsBelow tail.now pieces.now }
{
    match tail {
        None => true,
        Some(t) => are_before(pieces, t.rank, t.period),
    }
}
