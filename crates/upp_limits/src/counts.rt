//! How many unrolled pieces of a curve start before a time.

ghost use Rattle.std.specs.Prelude.{ℕ, ◌≡◌, ◌-◌, ◌*◌, ◌≤◌, ◌^◌, min, pos, sum_by, length, IfSome};
ghost use Rattle.rational.specs.Rational.{ℚ, int, ◌≤ℚ◌, ◌<ℚ◌};
ghost use Rattle.upp_curve.specs.Curve.{SpecCurve};
ghost use Rattle.upp_curve.specs.affine_segment.Pieces.{StartsAtZero};
ghost use Rattle.upp_curve.specs.Unrolled.{count};
ghost use Rattle.upp_limits.specs.Periods.{HasPeriod};
ghost use Rattle.upp_limits.specs.Spans.{once, number_below};
ghost use Rattle.upp_limits.specs.Covered.{MostCopies};

use crate::start_counts::count_before;
use fraction128::{Frac, is_less};
use upp_curve::affine_segment::Piece;
use upp_curve::{Curve, Tail};

/// 1 where the piece starts before `end`, else 0.
fn once(piece: &Piece, end: Frac) -> u64
    ensures { result ≡ once end piece.now }
{
    if is_less(piece.x, end) { 1 } else { 0 }
}

/// How many of a piece and its copies start before `end`, up to the largest u64.
fn number_below(piece: &Piece, tail: &Tail, end: Frac) -> u64
    requires start { int (pos 0) ≤ℚ piece.now.x }
    requires period { HasPeriod tail.now }
    ensures { result ≡ min (number_below tail.now end piece.now) (2 ^ 64 - 1) }
{
    match tail {
        Tail::Periodic { rank, period, .. } => {
            if is_less(piece.x, *rank) {
                return once(piece, end);
            }
            let copies = count_before(piece.x, *period, end);
            copies.min(u64::MAX as u128) as u64
        }
        _ => once(piece, end),
    }
}

/// How many unrolled pieces start before `end`, up to the largest u64.
pub(crate) fn count_below(pieces: &[Piece], tail: &Tail, end: Frac) -> u64
    requires starts { StartsAtZero pieces.now }
    requires period { HasPeriod tail.now }
    ensures { let c : SpecCurve = record { pieces = pieces.now; tail = tail.now } in
        result ≡ min (count c end) (2 ^ 64 - 1) }
{
    let mut total: u64 = 0;
    for piece in pieces {
        total = total.saturating_add(number_below(piece, tail, end));
    }
    total
}

/// A number that is at least 1, and at least how many copies of a piece of a periodic tail start before `end`.
fn copies_after(rank: Frac, period: Frac, end: Frac) -> Option<u64>
    requires { int (pos 0) <ℚ period }
    ensures { IfSome result (λ m. (rise : ℚ) → MostCopies (Tail.Periodic rank period rise) end m) }
{
    if is_less(rank, Frac::zero()) {
        return None;
    }
    let copies = count_before(rank, period, end);
    if copies >= 1 << 20 {
        return None;
    }
    Some(copies as u64 + 1)
}

/// A bound of how many of a piece and its copies start before `end`.
fn most_copies(tail: &Tail, end: Frac) -> Option<u64>
    requires { HasPeriod tail.now }
    ensures { IfSome result (MostCopies tail.now end) }
{
    match tail {
        Tail::Periodic { rank, period, .. } => copies_after(*rank, *period, end),
        Tail::Affine { .. } => Some(1),
        Tail::Infinite { .. } => Some(1),
    }
}

/// A bound of how many unrolled pieces of a curve start before `end`, by one division; none where there are very many.
pub(crate) fn most_below(c: &Curve, end: Frac) -> Option<u64>
    ensures { IfSome result (λ m. count c.now end ≤ m) }
{
    match most_copies(c.tail(), end) {
        Some(copies) => match (c.pieces().len() as u64).checked_mul(copies) {
            Some(most) => Some(most),
            None => None,
        },
        None => None,
    }
}
