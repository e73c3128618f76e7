//! How a curve goes on from a time, up to the end of a window that may end before all its pieces have started.

ghost use Rattle.std.specs.Prelude.{◌≡◌, pos, List, ◌∷◌, Some, None};
ghost use Rattle.rational.specs.Rational.{ℚ, int, ◌+ℚ◌, ◌≤ℚ◌, ◌<ℚ◌, le_q};
ghost use Rattle.rational.specs.MinMax.{min_q};
ghost use Rattle.rational.specs.Ratio.{SumFits};
ghost use Rattle.upp_curve.specs.affine_segment.Values.{line_value};
ghost use Rattle.upp_curve.specs.affine_segment.Reading.{piece_in, piece_value, read, next_in, line_in};
ghost use Rattle.upp_curve.specs.affine_segment.Pieces.{StartsAtZero};
ghost use Rattle.upp_curve.specs.Curve.{value_at};
ghost use Rattle.upp_curve.specs.Curves.{IsCurve};
ghost use Rattle.upp_curve.specs.affine_segment.Fits.{LineFitsAt, ReadFits};
ghost use Rattle.upp_limits.specs.Limits.{Sizes};
ghost use Rattle.upp_normal.specs.Ahead.{IsOverBy, IsTimeIn};
ghost use Rattle.curve_deviation.specs.Parts.{IsFiniteInSizes, GoesTo, PartStands, IsKeptUntil};
ghost use Rattle.curve_call.specs.GapSteps.{earlier_of};

use curve_call::earlier;
use fraction128::{Ext, Frac, is_less, lesser, sum};
use upp_curve::affine_segment::{Line, Piece, next_start, piece_at, piece_value};
use upp_curve::{Curve, Tail};
use upp_normal::stretch_at;

/// How a curve goes on from a time of a window.
#[derive(Debug, Clone, Copy)]
pub struct Part {
    /// The value at the time.
    pub at: Ext,
    /// The line that follows; none is infinity.
    pub line: Option<Line>,
    /// Until when, not including it: the window's end, or earlier.
    pub until: Frac,
}

/// How pieces that go on with their last line do so from t, up to `end`.
fn plain_part(pieces: &[Piece], t: Frac, end: Frac) -> Part
    requires starts { StartsAtZero pieces.now }
    requires time { int (pos 0) ≤ℚ t }
    requires fits { ReadFits pieces.now t }
    ensures at { result.at ≡ read pieces.now t }
    ensures line { result.line ≡ line_in pieces.now t }
    ensures until { result.until ≡ earlier_of end (next_in pieces.now t None) }
{
    let piece = piece_at(pieces, t);
    let next = next_start(pieces, t, None);
    Part {
        at: piece_value(&piece, t),
        line: piece.line,
        until: earlier(end, &next),
    }
}

/// Up to when the pieces that are kept are the curve: where the first period is over, or the window's end.
fn kept_until(c: &Curve, end: Frac) -> Frac
    ensures until { IsKeptUntil c.now end result }
    ensures kept { IsCurve c.now }
{
    match *c.tail() {
        Tail::Periodic { rank, period, .. } => lesser(end, sum(rank, period)),
        Tail::Affine { .. } => end,
        Tail::Infinite { .. } => end,
    }
}

/// How a curve goes on from a time of a window, by what is kept of it, up to `kept`.
fn early_part(c: &Curve, t: Frac, kept: Frac, end: Frac) -> Part
    requires seen { (z : Sizes) × IsFiniteInSizes z end c.now × IsTimeIn z end t }
    requires until { IsKeptUntil c.now end kept }
    requires before { t <ℚ kept }
    ensures goes { GoesTo (value_at c.now) t end result }
    ensures stands { (z : Sizes) → IsFiniteInSizes z end c.now → IsTimeIn z end t → PartStands z result }
{
    plain_part(c.pieces(), t, kept)
}

/// How a curve goes on from a time of a window past its first period.
fn late_part(c: &Curve, t: Frac, end: Frac) -> Part
    requires seen { (z : Sizes) × IsFiniteInSizes z end c.now × IsTimeIn z end t }
    requires late { IsOverBy end c.now.tail }
    ensures goes { GoesTo (value_at c.now) t end result }
    ensures stands { (z : Sizes) → IsFiniteInSizes z end c.now → IsTimeIn z end t → PartStands z result }
{
    let stretch = stretch_at(c, t);
    Part {
        at: stretch.at,
        line: stretch.line,
        until: earlier(end, &stretch.next),
    }
}

/// How a curve goes on from a time of a window: the value there, the line that follows, and until when. By binary
/// search in the pieces that are kept; nothing is unrolled, and no memory is taken. The window's sizes z are those of
/// a gauge below 2^120, and t stands on its grid, from 0 on and before its end.
pub(crate) fn part_at(c: &Curve, t: Frac, end: Frac) -> Part
    requires { (z : Sizes) × IsFiniteInSizes z end c.now × IsTimeIn z end t }
    ensures goes { GoesTo (value_at c.now) t end result }
    ensures stands { (z : Sizes) → IsFiniteInSizes z end c.now → IsTimeIn z end t → PartStands z result }
{
    let kept = kept_until(c, end);
    if is_less(t, kept) {
        early_part(c, t, kept, end)
    } else {
        late_part(c, t, end)
    }
}
