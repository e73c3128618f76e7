//! By how much pieces gain at most more than with a slope, over any time.

ghost use Rattle.std.specs.Prelude.{◌≡◌, ◌∷◌, pos, IfSome};
ghost use Rattle.rational.specs.Rational.{int, ◌-ℚ◌, ◌*ℚ◌};
ghost use Rattle.upp_curve.specs.affine_segment.Values.{line_at};
ghost use Rattle.element_envelope.specs.Pace.{IsPaceOf, IsSeen};

use curve_call::{checked_difference, checked_product, checked_quotient};
use fraction128::{Frac, greater, is_less, lesser};
use rational::Extended;
use upp_curve::affine_segment::{Line, Piece, value};

/// Of fewer pieces after the first no pace is looked for: it would save less than it takes.
const FEW_PIECES: usize = 3;

/// A slope, and by how much pieces gain at most more than with it, over any time.
#[derive(Clone, Copy)]
pub(crate) struct Pace {
    /// The slope.
    pub(crate) slope: Frac,
    /// By how much more.
    pub(crate) more: Frac,
}

/// What was seen of pieces, less what a slope gains from 0 on.
#[derive(Clone, Copy)]
pub(crate) struct Seen {
    /// None of them starts below this.
    pub(crate) low: Frac,
    /// None is more than so much above an earlier start.
    pub(crate) more: Frac,
}

/// A value at x, less what the slope gains up to there.
pub(crate) fn height(v: Frac, slope: Frac, x: Frac) -> Option<Frac>
    ensures { IfSome result (λ h. h ≡ v -ℚ slope *ℚ x) }
{
    let gained = checked_product(slope, x)?;
    checked_difference(v, gained)
}

// That of a line.
fn line_height(line: &Line, slope: Frac, x: Frac) -> Option<Frac>
    ensures { IfSome result (λ h. h ≡ line_at line.now x -ℚ slope *ℚ x) }
{
    match value(line, x) {
        Ok(v) => height(v, slope, x),
        Err(_) => None,
    }
}

// After one piece more, which ends at `until`.
fn seen_more(seen: Seen, p: &Piece, slope: Frac, until: Frac) -> Option<Seen>
    ensures { IfSome result (IsSeen slope until p.now seen) }
{
    let Extended::Fin(v) = p.at else {
        return None;
    };
    let Some(line) = &p.line else {
        return None;
    };
    let start = height(v, slope, p.x)?;
    let after = line_height(line, slope, p.x)?;
    let before = line_height(line, slope, until)?;
    let low = lesser(seen.low, start);
    let top = greater(start, greater(after, before));
    let more = checked_difference(top, low)?;
    Some(Seen {
        low,
        more: greater(seen.more, more),
    })
}

// By how much more, up to `end`.
fn more_than(first: &Piece, rest: &[Piece], slope: Frac, end: Frac) -> Option<Frac>
    ensures { IfSome result (λ a. IsPaceOf slope a end (first.now ∷ rest.now)) }
{
    let mut seen = Seen {
        low: Frac::zero(),
        more: Frac::zero(),
    };
    let mut last = *first;
    for p in rest {
        let next = seen_more(seen, &last, slope, p.x)?;
        seen = next;
        last = *p;
    }
    let all = seen_more(seen, &last, slope, end)?;
    Some(all.more)
}

// The slope from the first start to the last.
fn mean_slope(first: &Piece, rest: &[Piece]) -> Option<Frac> {
    let Some(last) = rest.last() else {
        return match first.line {
            Some(line) => Some(line.slope),
            None => None,
        };
    };
    let Extended::Fin(v) = first.at else {
        return None;
    };
    let Extended::Fin(w) = last.at else {
        return None;
    };
    let time = checked_difference(last.x, first.x)?;
    if !is_less(Frac::zero(), time) {
        return None;
    }
    let gained = checked_difference(w, v)?;
    checked_quotient(gained, time)
}

// Of a first piece and the rest.
fn pace_from(first: &Piece, rest: &[Piece], end: Frac) -> Option<Pace>
    ensures { IfSome result (λ p. IsPaceOf p.slope p.more end (first.now ∷ rest.now)) }
{
    if rest.len() < FEW_PIECES {
        return None;
    }
    let slope = mean_slope(first, rest)?;
    let more = more_than(first, rest, slope, end)?;
    Some(Pace { slope, more })
}

/// The slope from the first start of pieces to the last, and by how much they gain at most more before `end`; none where a
/// step does not fit, they are infinite somewhere, or few.
pub(crate) fn pace_of(pieces: &[Piece], end: Frac) -> Option<Pace>
    ensures { IfSome result (λ p. IsPaceOf p.slope p.more end pieces.now) }
{
    match pieces {
        [] => None,
        [first, rest @ ..] => pace_from(first, rest, end),
    }
}
