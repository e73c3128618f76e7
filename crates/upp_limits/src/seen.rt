//! The values of a piece that count in a gauge.

ghost use Rattle.std.specs.Prelude.{◌≡◌, ◌<◌, ◌^◌, pos, IfSome, IsSome};
ghost use Rattle.rational.specs.Rational.{ℚ, int, ◌*ℚ◌};
ghost use Rattle.rational.specs.Extended.{◌+ₑ◌};
ghost use Rattle.upp_curve.specs.affine_segment.Values.{line_value};
ghost use Rattle.upp_curve.specs.affine_segment.Fits.{LineFitsAt};
ghost use Rattle.upp_limits.specs.Spans.{Span};
ghost use Rattle.upp_limits.specs.Limits.{limit_before};
ghost use Rattle.upp_limits.specs.Seen.{seen_of, seen_risen, NextFits, SpanFits, ValueRises, SeenRises};

use fraction128::{Ext, Frac};
use rational::Extended;
use upp_curve::affine_segment::{Line, Piece, value};

/// The values of a piece at its start, just after it, and just before the next start; infinity where there is none.
#[derive(Clone, Copy)]
pub(crate) struct Seen {
    pub at: Ext,
    pub after: Ext,
    pub before: Ext,
}

/// The value of a line at t.
#[inline(always)]
pub(crate) fn line_value(line: Option<Line>, t: Frac) -> Option<Ext>
    ensures value { IfSome result (λ v. v ≡ line_value line t) }
    ensures fits { LineFitsAt t line → IsSome result }
{
    match line {
        None => Some(Extended::Inf),
        Some(l) => {
            // A level line takes no step, and none does at 0.
            if l.slope == Frac::zero() {
                return Some(Extended::Fin(l.icept));
            }
            if t == Frac::zero() {
                return Some(Extended::Fin(l.icept));
            }
            match value(&l, t) {
                Ok(v) => Some(Extended::Fin(v)),
                Err(_) => None,
            }
        }
    }
}

/// The limit of a line just before the next start.
#[inline(always)]
fn limit_before(line: Option<Line>, next: &Option<Frac>) -> Option<Ext>
    ensures value { IfSome result (λ v. v ≡ limit_before line next.now) }
    ensures fits { NextFits line next.now → IsSome result }
{
    match next {
        None => Some(Extended::Inf),
        Some(end) => line_value(line, *end),
    }
}

/// The values of a piece up to the next start.
#[inline(always)]
pub(crate) fn seen_values(piece: &Piece, next: &Option<Frac>) -> Option<Seen>
    ensures value { let span : Span = record { piece = piece.now; next = next.now } in
        IfSome result (λ s. s ≡ seen_of span) }
    ensures fits { let span : Span = record { piece = piece.now; next = next.now } in SpanFits span → IsSome result }
{
    Some(Seen {
        at: piece.at,
        after: line_value(piece.line, piece.x)?,
        before: limit_before(piece.line, next)?,
    })
}

/// A value, n times the rise higher.
fn risen(v: Ext, n: Frac, rise: Frac) -> Option<Ext>
    ensures value { IfSome result (λ r. r ≡ v +ₑ Extended.Fin (n *ℚ rise)) }
    ensures fits { ValueRises v n rise → IsSome result }
{
    match v {
        Extended::Inf => Some(Extended::Inf),
        Extended::Fin(x) => {
            let Ok(by) = Frac::mul(n, rise) else {
                return None;
            };
            match Frac::add(x, by) {
                Ok(sum) => Some(Extended::Fin(sum)),
                Err(_) => None,
            }
        }
    }
}

/// The values of a piece, n times the rise higher.
pub(crate) fn seen_risen(piece: &Piece, next: &Option<Frac>, n: Frac, rise: Frac) -> Option<Seen>
    ensures value { let span : Span = record { piece = piece.now; next = next.now } in
        IfSome result (λ s. s ≡ seen_risen (seen_of span) (n *ℚ rise)) }
    ensures fits { let span : Span = record { piece = piece.now; next = next.now } in
        SpanFits span → SeenRises (seen_of span) n rise → IsSome result }
{
    let values = seen_values(piece, next)?;
    Some(Seen {
        at: risen(values.at, n, rise)?,
        after: risen(values.after, n, rise)?,
        before: risen(values.before, n, rise)?,
    })
}
