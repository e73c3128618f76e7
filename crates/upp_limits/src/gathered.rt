//! The sizes of the numbers of a call, gathered one by one.

ghost use Rattle.std.specs.Prelude.{ℕ, ◌≡◌, ◌<◌, pos, IfSome, IsSome};
ghost use Rattle.rational.specs.Rational.{ℚ, int, ◌*ℚ◌};
ghost use Rattle.rational.specs.Gauge.{Kept, lcm, size_up};
ghost use Rattle.upp_limits.specs.Limits.{Numbers, no_numbers, joined, time_alone, value_alone, slope_alone};
ghost use Rattle.upp_limits.specs.Limits.{values_alone, slopes_alone, finite, line_slope};
ghost use Rattle.upp_limits.specs.Spans.{Span};
ghost use Rattle.upp_limits.specs.Seen.{seen_of, SpanFits, SeenRises};
ghost use Rattle.upp_limits.specs.ClosedForm.{span_numbers, last_numbers};
ghost use Rattle.upp_limits.specs.Gathered.{Gathers};

use crate::seen::{seen_risen, seen_values};
use crate::starts::sizes;
use fraction128::{Ext, Frac, gcd_of};
use rational::Extended;
use upp_curve::affine_segment::{Line, Piece};

/// The sizes of the numbers so far: the least common denominators of values, times and slopes, twice the largest slope
/// and the largest value rounded up. Each is right up to the largest number and stays there.
#[derive(Debug, Clone, Copy)]
pub struct Gathered {
    pub dv: u128,
    pub dt: u128,
    pub ds: u128,
    pub steepness: u128,
    pub largest: u128,
}

/// The least common multiple of a and what b stands for.
#[inline(always)]
pub fn common_multiple(a: u128, b: u128) -> u128
    requires { 0 < a }
    ensures { (n : ℕ) → Kept b n → Kept result (lcm a n) }
{
    // Most denominators are 1, and a division of 128 bits takes long.
    if a == 1 {
        return b;
    }
    multiple_apart(a, b)
}

// A call of its own, so that only what is done for a 1 is written out where it is called.
#[inline(never)]
fn multiple_apart(a: u128, b: u128) -> u128
    requires { 0 < a }
    ensures { (n : ℕ) → Kept b n → Kept result (lcm a n) }
{
    if b == u128::MAX {
        return b;
    }
    // On one grid most denominators are equal.
    if a == b {
        return b;
    }
    (a / gcd_of(a, b)).saturating_mul(b)
}

/// The least whole number that is at least twice the size of x.
#[inline(always)]
fn twice_size_up(x: Frac) -> u128
    ensures { result ≡ size_up (int (pos 2) *ℚ x) }
{
    let (top, bottom) = sizes(x);
    let double = top * 2;
    if bottom == 1 {
        return double;
    }
    twice_parts_up(x)
}

// The same of any fraction: a call of its own, as above.
#[inline(never)]
fn twice_parts_up(x: Frac) -> u128
    ensures { result ≡ size_up (int (pos 2) *ℚ x) }
{
    let (top, bottom) = sizes(x);
    let double = top * 2;
    if double % bottom == 0 {
        double / bottom
    } else {
        double / bottom + 1
    }
}

impl Gathered {
    /// No number.
    pub fn nothing() -> Gathered
        ensures { Gathers result no_numbers }
    {
        Gathered {
            dv: 1,
            dt: 1,
            ds: 1,
            steepness: 1,
            largest: 1,
        }
    }

    /// A time more.
    #[inline(always)]
    pub fn with_time(self, x: Frac) -> Gathered
        ensures { (n : Numbers) → Gathers self n → Gathers result (joined n (time_alone x)) }
    {
        let (_, bottom) = sizes(x);
        Gathered {
            dt: common_multiple(bottom, self.dt),
            ..self
        }
    }

    /// A value more.
    #[inline(always)]
    pub fn with_value(self, x: Frac) -> Gathered
        ensures { (n : Numbers) → Gathers self n → Gathers result (joined n (value_alone x)) }
    {
        let (_, bottom) = sizes(x);
        Gathered {
            dv: common_multiple(bottom, self.dv),
            largest: self.largest.max(x.size_up()),
            ..self
        }
    }

    /// A slope more.
    #[inline(always)]
    pub fn with_slope(self, x: Frac) -> Gathered
        ensures { (n : Numbers) → Gathers self n → Gathers result (joined n (slope_alone x)) }
    {
        let (_, bottom) = sizes(x);
        Gathered {
            ds: common_multiple(bottom, self.ds),
            steepness: self.steepness.max(twice_size_up(x)),
            ..self
        }
    }

    /// A value more, where it is finite.
    #[inline(always)]
    pub(crate) fn with_ext(self, v: Ext) -> Gathered
        ensures { (n : Numbers) → Gathers self n → Gathers result (joined n (values_alone (finite v))) }
    {
        match v {
            Extended::Fin(x) => self.with_value(x),
            Extended::Inf => self,
        }
    }

    /// The slope of a line more, where there is one.
    #[inline(always)]
    pub fn with_line(self, line: Option<Line>) -> Gathered
        ensures { (n : Numbers) → Gathers self n → Gathers result (joined n (slopes_alone (line_slope line))) }
    {
        match line {
            Some(l) => self.with_slope(l.slope),
            None => self,
        }
    }

    /// A piece more: its start, its values and its slope, where the steps to the values fit.
    #[inline(always)]
    pub fn with_span(self, piece: &Piece, next: &Option<Frac>) -> Option<Gathered>
        ensures value { let span : Span = record { piece = piece.now; next = next.now } in
            IfSome result (λ r. (n : Numbers) → Gathers self n → Gathers r (joined n (span_numbers span))) }
        ensures fits { let span : Span = record { piece = piece.now; next = next.now } in
            SpanFits span → IsSome result }
    {
        let values = seen_values(piece, next)?;
        let placed = self.with_time(piece.x).with_line(piece.line);
        Some(
            placed
                .with_ext(values.at)
                .with_ext(values.after)
                .with_ext(values.before),
        )
    }

    /// The values of a piece more, n times the rise higher.
    pub fn with_last(
        &self,
        piece: &Piece,
        next: &Option<Frac>,
        n: Frac,
        rise: Frac,
    ) -> Option<Gathered>
        ensures value { let span : Span = record { piece = piece.now; next = next.now } in
            IfSome result (λ r. (m : Numbers) → Gathers self.now m
            → Gathers r (joined m (last_numbers (n *ℚ rise) span))) }
        ensures fits { let span : Span = record { piece = piece.now; next = next.now } in
            SpanFits span → SeenRises (seen_of span) n rise → IsSome result }
    {
        let values = seen_risen(piece, next, n, rise)?;
        Some(
            (*self)
                .with_ext(values.at)
                .with_ext(values.after)
                .with_ext(values.before),
        )
    }
}
