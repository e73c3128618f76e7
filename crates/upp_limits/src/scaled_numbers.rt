//! The sizes of the numbers of a curve times a factor in a window, made piece by piece.

ghost use Rattle.std.specs.Prelude.{◌≡◌, pos, IfSome, IsSome, map, Some};
ghost use Rattle.std.specs.List.{AllByRecursion};
ghost use Rattle.rational.specs.Rational.{ℚ, int, ◌≤ℚ◌, ◌*ℚ◌};
ghost use Rattle.rational.specs.Ratio.{IsSmall};
ghost use Rattle.min_plus.specs.Pointwise.{scaled};
ghost use Rattle.upp_curve.specs.Curve.{SpecCurve};
ghost use Rattle.upp_limits.specs.Periods.{HasPeriod};
ghost use Rattle.upp_limits.specs.Spans.{IsListed, Span, spans};
ghost use Rattle.upp_limits.specs.Limits.{Numbers, joined};
ghost use Rattle.upp_limits.specs.Gathered.{Gathers};
ghost use Rattle.upp_limits.specs.Seen.{Knows};
ghost use Rattle.upp_limits.specs.ClosedForm.{closed_span, closed_spans, closed_numbers};
ghost use Rattle.upp_limits.specs.Gauges.{scaled_line, scaled_piece, scaled_tail, scaled_curve};
ghost use Rattle.upp_limits.specs.ClosedOperands.{ValueScales, LineScales, PieceScales, TailScales, scaled_span, KnowsTimes, KnowsScaled};

use crate::curve_numbers::{Listing, Reading, span_at, with_below, with_tail};
use crate::gathered::Gathered;
use fraction128::{Ext, Frac, is_less};
use rational::Extended;
use upp_curve::Tail;
use upp_curve::affine_segment::{Line, Piece};

/// A value times a factor.
fn scaled(v: Ext, factor: Frac) -> Option<Ext>
    ensures value { IfSome result (λ r. r ≡ scaled factor v) }
    ensures fits { ValueScales factor v → IsSome result }
{
    match v {
        Extended::Inf => Some(Extended::Inf),
        Extended::Fin(x) => match Frac::mul(factor, x) {
            Ok(product) => Some(Extended::Fin(product)),
            Err(_) => None,
        },
    }
}

/// A line times a factor.
fn scaled_line(line: &Line, factor: Frac) -> Option<Line>
    ensures value { IfSome result (λ r. Some r ≡ scaled_line factor (Some line.now)) }
    ensures fits { LineScales factor (Some line.now) → IsSome result }
{
    let Ok(icept) = Frac::mul(factor, line.icept) else {
        return None;
    };
    let Ok(slope) = Frac::mul(factor, line.slope) else {
        return None;
    };
    Some(Line { icept, slope })
}

/// What follows a start, times a factor.
fn scaled_after(line: Option<Line>, factor: Frac) -> Option<Option<Line>>
    ensures value { IfSome result (λ r. r ≡ scaled_line factor line) }
    ensures fits { LineScales factor line → IsSome result }
{
    match line {
        None => Some(None),
        Some(l) => match scaled_line(&l, factor) {
            Some(found) => Some(Some(found)),
            None => None,
        },
    }
}

/// A piece times a factor. None only where a product does not fit.
pub fn scaled_piece(piece: &Piece, factor: Frac) -> Option<Piece>
    ensures value { IfSome result (λ r. r ≡ scaled_piece factor piece.now) }
    ensures fits { PieceScales factor piece.now → IsSome result }
{
    let at = scaled(piece.at, factor)?;
    let line = scaled_after(piece.line, factor)?;
    Some(Piece {
        x: piece.x,
        at,
        line,
    })
}

/// A tail times a factor. None only where the product does not fit.
pub fn scaled_tail(tail: &Tail, factor: Frac) -> Option<Tail>
    ensures value { IfSome result (λ r. r ≡ scaled_tail factor tail.now) }
    ensures fits { TailScales factor tail.now → IsSome result }
{
    match tail {
        Tail::Periodic { rank, period, rise } => match Frac::mul(factor, *rise) {
            Ok(product) => Some(Tail::Periodic {
                rank: *rank,
                period: *period,
                rise: product,
            }),
            Err(_) => None,
        },
        Tail::Affine { rank } => Some(Tail::Affine { rank: *rank }),
        Tail::Infinite { rank } => Some(Tail::Infinite { rank: *rank }),
    }
}

/// What of a piece times a factor starts before `end` more; the tail is scaled.
fn with_scaled_below(
    g: Gathered,
    factor: Frac,
    read: &Reading,
    tail: &Tail,
    end: Frac,
) -> Option<Gathered>
    requires start { int (pos 0) ≤ℚ read.now.0.x }
    requires period { HasPeriod tail.now }
    ensures value { let span : Span = record { piece = read.now.0; next = read.now.1 } in
        IfSome result (λ r. (n : Numbers) → Gathers g n
        → Gathers r (joined n (closed_span tail.now end (scaled_span factor span)))) }
    ensures fits { let span : Span = record { piece = read.now.0; next = read.now.1 } in
        KnowsTimes factor tail.now end span → IsSome result }
{
    if !is_less(read.0.x, end) {
        return Some(g);
    }
    match scaled_piece(&read.0, factor) {
        Some(more) => with_below(g, &(more, read.1), tail, end),
        None => None,
    }
}

/// The pieces of a curve times a factor more, as far as they and their copies start before `end`; the tail is scaled.
fn with_scaled_pieces(g: Gathered, factor: Frac, of: &Listing, end: Frac) -> Option<Gathered>
    requires listed { IsListed of.now.pieces.now of.now.tail.now of.now.after }
    requires period { HasPeriod of.now.tail.now }
    ensures value { let tail = of.now.tail.now in IfSome result (λ r. (n : Numbers) → Gathers g n
        → Gathers r (joined n (closed_spans tail end (map (scaled_span factor) (spans tail of.now.pieces.now))))) }
    ensures fits { let tail = of.now.tail.now in
        AllByRecursion (KnowsTimes factor tail end) (spans tail of.now.pieces.now) → IsSome result }
{
    let mut found = g;
    for i in 0..of.pieces.len() {
        let read = span_at(of, i);
        match with_scaled_below(found, factor, &read, of.tail, end) {
            Some(more) => found = more,
            None => return None,
        }
    }
    Some(found)
}

/// A curve times a factor more, as far as its pieces and their copies start before `end`.
pub(crate) fn with_scaled(g: Gathered, factor: Frac, of: &Listing, end: Frac) -> Option<Gathered>
    requires listed { IsListed of.now.pieces.now of.now.tail.now of.now.after }
    requires period { HasPeriod of.now.tail.now }
    ensures value { let c : SpecCurve = record { pieces = of.now.pieces.now; tail = of.now.tail.now } in
        IfSome result (λ r. (n : Numbers) → Gathers g n
        → Gathers r (joined n (closed_numbers end (scaled_curve factor c)))) }
    ensures fits { let c : SpecCurve = record { pieces = of.now.pieces.now; tail = of.now.tail.now } in
        KnowsScaled factor end c → IsSome result }
{
    match scaled_tail(of.tail, factor) {
        Some(times) => {
            let scaled = Listing {
                pieces: of.pieces,
                tail: &times,
                after: of.after,
            };
            with_scaled_pieces(with_tail(g, &times), factor, &scaled, end)
        }
        None => None,
    }
}
