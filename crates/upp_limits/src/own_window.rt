//! A curve by itself: the end of its window, and its gauge, in whatever form it is given.

ghost use Rattle.std.specs.Prelude.{◌≡◌, ◌^◌, ◌≤◌, pos, false, IfNone, IfSome, IsSome, MatchOption};
ghost use Rattle.rational.specs.Rational.{ℚ, int, ◌+ℚ◌, ◌≤ℚ◌};
ghost use Rattle.rational.specs.declared.Extended.TheVariants.{Inf};
ghost use Rattle.upp_curve.specs.affine_segment.Values.{line_value};
ghost use Rattle.upp_curve.specs.affine_segment.Reading.{piece_value};
ghost use Rattle.upp_curve.specs.Curve.{SpecCurve};
ghost use Rattle.upp_curve.specs.Steady.{same_ext, later_unless};
ghost use Rattle.upp_limits.specs.OwnWindow.{LastBy, end_from, EndFits, EndsAt, AreNumbers};
ghost use Rattle.upp_limits.specs.Periods.{HasPeriod};
ghost use Rattle.upp_limits.specs.Spans.{IsListed, end_of};
ghost use Rattle.rational.specs.Ratio.{SumFits};
ghost use Rattle.upp_curve.specs.Normal.{IsRaw};
ghost use Rattle.upp_limits.specs.Gathered.{Gathers};
ghost use Rattle.upp_limits.specs.Limits.{Numbers, joined, time_alone, own_end, own_gauge, own_sizes, gauge_of, sizes_of, curve_numbers};
ghost use Rattle.upp_limits.specs.Seen.{RankLineFits};

use crate::curve_numbers::{Listing, with_curve};
use crate::gathered::Gathered;
use crate::gauges::gauge_of;
use crate::seen::line_value;
use fraction128::{Ext, Frac, is_less};
use rational::Extended;
use upp_curve::Tail;
use upp_curve::affine_segment::Piece;
use upp_curve::same::same_ext;

/// Whether the value at the rank, of a last piece that starts at it or before, is that of the piece's line.
pub fn keeps_line(last: &Piece, rank: Frac) -> Option<bool>
    requires { last.now.x ≤ℚ rank }
    ensures value { IfSome result (λ b. b ≡ same_ext (piece_value last.now rank) (line_value last.now.line rank)) }
    ensures fits { RankLineFits last.now rank → IsSome result }
{
    if is_less(last.x, rank) {
        return Some(true);
    }
    match line_value(last.line, rank) {
        Some(value) => Some(same_ext(last.at, value)),
        None => None,
    }
}

/// Whether the value at the rank, of a last piece that starts at it or before, is infinite.
pub fn is_infinite_at(last: &Piece, rank: Frac) -> bool
    requires { last.now.x ≤ℚ rank }
    ensures { result ≡ same_ext (piece_value last.now rank) Inf }
{
    if is_less(last.x, rank) {
        return match last.line {
            None => true,
            Some(_) => false,
        };
    }
    match last.at {
        Extended::Inf => true,
        Extended::Fin(_) => false,
    }
}

/// The rank, or one later unless `keeps`. None exactly where that is one later and does not fit.
#[inline]
pub fn later_unless(keeps: bool, rank: Frac) -> Option<Frac>
    ensures value { IfSome result (λ t. t ≡ later_unless keeps rank) }
    ensures fits { SumFits rank (int (pos 1)) → IsSome result }
    ensures none { IfNone result ((keeps ≡ false) × ¬ (SumFits rank (int (pos 1)))) }
{
    if keeps {
        return Some(rank);
    }
    Frac::add(rank, Frac::one()).ok()
}

/// One after the time from when on an affine or an infinite tail repeats.
fn end_after(keeps: bool, rank: Frac) -> Option<Frac>
    ensures value { IfSome result (λ t. t ≡ later_unless keeps rank +ℚ int (pos 1)) }
    ensures fits { SumFits rank (int (pos 1)) → SumFits (later_unless keeps rank) (int (pos 1)) → IsSome result }
{
    let steady = later_unless(keeps, rank)?;
    Frac::add(steady, Frac::one()).ok()
}

/// The end of a curve's own window: one period, or 1, after the time from when on it repeats.
fn own_end(last: &Piece, tail: &Tail) -> Option<Frac>
    requires { LastBy last.now tail.now }
    ensures value { IfSome result (λ t. t ≡ end_from last.now tail.now) }
    ensures fits { EndFits last.now tail.now → IsSome result }
{
    match tail {
        Tail::Periodic { rank, period, .. } => Frac::add(*rank, *period).ok(),
        Tail::Affine { rank } => match keeps_line(last, *rank) {
            Some(keeps) => end_after(keeps, *rank),
            None => None,
        },
        Tail::Infinite { rank } => end_after(is_infinite_at(last, *rank), *rank),
    }
}

/// The numbers that limit a call on a curve by itself: the end of its window, its gauge, and the grids of its times and
/// of its values.
#[derive(Debug, Clone, Copy)]
pub struct OwnNumbers {
    pub end: Frac,
    pub gauge: u128,
    pub times: u128,
    pub values: u128,
}

/// The numbers of what was gathered, the window's end first; None where the gauge is 2^128 or more.
pub(crate) fn numbers_of(g: Gathered, end: Frac) -> Option<OwnNumbers>
    ensures { (n : Numbers) → Gathers g (joined (time_alone end) n)
        → MatchOption result (2 ^ 128 ≤ gauge_of (sizes_of end n)) (AreNumbers end (sizes_of end n)) }
{
    match gauge_of(g, end) {
        Some(gauge) => Some(OwnNumbers {
            end,
            gauge,
            times: g.dt,
            values: g.dv.saturating_mul(g.dt).saturating_mul(g.ds),
        }),
        None => None,
    }
}

// The numbers of a curve with a window; None where the gauge is 2^128 or more.
fn numbers_with(of: &Listing, end: Frac) -> Option<OwnNumbers>
    requires listed { IsListed of.now.pieces.now of.now.tail.now of.now.after }
    requires period { HasPeriod of.now.tail.now }
    ensures { let c : SpecCurve = record { pieces = of.now.pieces.now; tail = of.now.tail.now } in
        let exact = sizes_of end (curve_numbers end c) in
        MatchOption result (2 ^ 128 ≤ gauge_of exact) (AreNumbers end exact) }
{
    match with_curve(Gathered::nothing().with_time(end), of, end) {
        Some(found) => numbers_of(found, end),
        None => None,
    }
}

/// Where the next piece starts after the last, for a periodic tail whose first period ends at `end`.
fn after_last(tail: &Tail, end: Frac) -> Option<Frac>
    requires { EndsAt tail.now end }
    ensures { result ≡ end_of tail.now }
{
    match tail {
        Tail::Periodic { .. } => Some(end),
        Tail::Affine { .. } => None,
        Tail::Infinite { rank } => Some(*rank),
    }
}

/// The numbers of a curve by itself, in whatever form it is given; None where its gauge is 2^128 or more.
pub(crate) fn own_numbers(pieces: &[Piece], tail: &Tail) -> Option<OwnNumbers>
    requires { let c : SpecCurve = record { pieces = pieces.now; tail = tail.now } in IsRaw c }
    ensures { let c : SpecCurve = record { pieces = pieces.now; tail = tail.now } in
        MatchOption result (2 ^ 128 ≤ own_gauge c) (AreNumbers (own_end c) (own_sizes c)) }
{
    match own_end(&pieces[pieces.len() - 1], tail) {
        Some(end) => {
            let after = after_last(tail, end);
            numbers_with(
                &Listing {
                    pieces,
                    tail,
                    after,
                },
                end,
            )
        }
        None => None,
    }
}
