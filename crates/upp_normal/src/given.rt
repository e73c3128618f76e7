//! Whether pieces and a tail that are given make a curve.

ghost use Rattle.std.specs.Prelude.{◌≡◌, ◌↔◌, pos, IsTrue};
ghost use Rattle.rational.specs.Rational.{int, ◌+ℚ◌, ◌≤ℚ◌, ◌<ℚ◌};
ghost use Rattle.upp_normal.specs.Given.{Follows};
ghost use Rattle.upp_curve.specs.Normal.{FitsPeriod, FitsRank, IsRaw, TailFits};
ghost use Rattle.upp_curve.specs.affine_segment.Pieces.{StartsAtZero};
ghost use Rattle.upp_normal.specs.Normalising.{raw_curve};

use crate::raw_curve::RawCurve;
use fraction128::{Frac, is_less};
use upp_curve::Tail;
use upp_curve::affine_segment::Piece;
use upp_limits::is_after;

// Whether a start may come after the one before; the first is 0.
fn follows(before: &Option<Frac>, x: Frac) -> bool
    ensures { IsTrue result ↔ Follows before.now x }
{
    match before {
        None => x == Frac::zero(),
        Some(y) => is_less(*y, x),
    }
}

// Whether the first piece starts at 0 and starts rise.
fn starts_at_zero(pieces: &[Piece]) -> bool
    ensures { IsTrue result ↔ StartsAtZero pieces.now }
{
    let mut before: Option<Frac> = None;
    for p in pieces {
        if !follows(&before, p.x) {
            return false;
        }
        before = Some(p.x);
    }
    before.is_some()
}

// Whether the rank is at least 0, the period above 0, and the last start before rank + period.
fn fits_period(pieces: &[Piece], rank: Frac, period: Frac) -> bool
    requires { StartsAtZero pieces.now }
    ensures { IsTrue result ↔ FitsPeriod pieces.now rank period }
{
    if is_less(rank, Frac::zero()) {
        return false;
    }
    if !is_less(Frac::zero(), period) {
        return false;
    }
    is_after(rank, 1, period, pieces[pieces.len() - 1].x)
}

// Whether the rank is at least 0, and no start after it.
fn fits_rank(pieces: &[Piece], rank: Frac) -> bool
    requires { StartsAtZero pieces.now }
    ensures { IsTrue result ↔ FitsRank pieces.now rank }
{
    if is_less(rank, Frac::zero()) {
        return false;
    }
    !is_less(rank, pieces[pieces.len() - 1].x)
}

// Whether the tail goes with the pieces.
fn tail_fits(pieces: &[Piece], tail: &Tail) -> bool
    requires { StartsAtZero pieces.now }
    ensures { IsTrue result ↔ TailFits pieces.now tail.now }
{
    match *tail {
        Tail::Periodic {
            rank,
            period,
            rise: _,
        } => fits_period(pieces, rank, period),
        Tail::Affine { rank } => fits_rank(pieces, rank),
        Tail::Infinite { rank } => fits_rank(pieces, rank),
    }
}

impl RawCurve {
    /// Whether it is a curve, as `normalise` needs it: the first piece starts at 0, starts rise and the tail goes with
    /// them.
    pub fn is_raw(&self) -> bool
        ensures { IsTrue result ↔ IsRaw (raw_curve self.now) }
    {
        starts_at_zero(&self.pieces) && tail_fits(&self.pieces, &self.tail)
    }
}
