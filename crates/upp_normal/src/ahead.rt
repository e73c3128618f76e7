//! How a curve goes on from a time, without unrolling it.

ghost use Rattle.std.specs.Prelude.{ℕ, ◌≡◌, pos, None};
ghost use Rattle.rational.specs.Rational.{ℚ, int, ◌*ℚ◌, ◌≤ℚ◌, ◌<ℚ◌};
ghost use Rattle.rational.specs.Grid.{Whole};
ghost use Rattle.rational.specs.Whole.{periods};
ghost use Rattle.rational.specs.Extended.{◌+ₑ◌};
ghost use Rattle.upp_curve.specs.affine_segment.Values.{line_value};
ghost use Rattle.upp_curve.specs.affine_segment.Reading.{read, next_in, line_in};
ghost use Rattle.upp_curve.specs.Curve.{value_at};
ghost use Rattle.upp_curve.specs.Curves.{IsCurve};
ghost use Rattle.upp_curve.specs.affine_segment.Pieces.{StartsAtZero};
ghost use Rattle.upp_curve.specs.affine_segment.Fits.{ReadFits, LineFitsAt};
ghost use Rattle.upp_curve.specs.Unrolled.{line_later};
ghost use Rattle.upp_limits.specs.Seen.{ValueRises};
ghost use Rattle.upp_limits.specs.Limits.{Sizes};
ghost use Rattle.upp_normal.specs.Operand.{OperandLineAt};
ghost use Rattle.upp_normal.specs.Ahead.{GoesOn, AtNext, TimesStand, HasWindow, IsTimeIn, GridValue};
ghost use Rattle.upp_limits.specs.Spans.{next_later};
ghost use Rattle.upp_normal.specs.Copied.{LineRises, TakesPeriodsOff, NextMoves};

use fraction128::{Ext, Frac, difference, is_less, product, quotient, sum};
use rational::Extended;
use upp_curve::affine_segment::{Line, Piece, line_value, next_start, piece_at, piece_value};
use upp_curve::fitting::line_later;
use upp_curve::{Curve, Tail};

/// How a curve goes on from a time.
#[derive(Debug, Clone, Copy)]
pub struct Stretch {
    /// The value at the time.
    pub at: Ext,
    /// The line that follows; none is infinity.
    pub line: Option<Line>,
    /// Until when, not including it; none is for ever.
    pub next: Option<Frac>,
}

/// How pieces that go on with their last line do so from t.
pub fn plain_stretch(pieces: &[Piece], t: Frac) -> Stretch
    requires starts { StartsAtZero pieces.now }
    requires time { int (pos 0) ≤ℚ t }
    requires fits { ReadFits pieces.now t }
    ensures at { result.at ≡ read pieces.now t }
    ensures line { result.line ≡ line_in pieces.now t }
    ensures next { result.next ≡ next_in pieces.now t None }
{
    let piece = piece_at(pieces, t);
    let next = next_start(pieces, t, None);
    Stretch {
        at: piece_value(&piece, t),
        line: piece.line,
        next,
    }
}

/// A value, n times the rise higher.
fn risen(v: Ext, n: Frac, rise: Frac) -> Ext
    requires { ValueRises v n rise }
    ensures { result ≡ v +ₑ Extended.Fin (n *ℚ rise) }
{
    match v {
        Extended::Inf => Extended::Inf,
        Extended::Fin(x) => Extended::Fin(sum(x, product(n, rise))),
    }
}

/// The line of a piece, `by` later and n times the rise higher.
fn line_risen(piece: &Piece, by: Frac, n: Frac, rise: Frac) -> Option<Line>
    requires { LineRises piece.now.line by n rise }
    ensures { result ≡ line_later by (n *ℚ rise) piece.now.line }
{
    match piece.line {
        None => None,
        Some(_) => line_later(by, product(n, rise), piece.line),
    }
}

/// A time past the rank, as one of the first period: n whole periods, `by` in all, are taken off.
#[derive(Clone, Copy)]
struct Turn {
    n: Frac,
    by: Frac,
    early: Frac,
}

/// The time as one of the first period.
fn turn_of(c: &Curve, rank: Frac, period: Frac, rise: Frac, t: Frac) -> Turn
    requires curve { IsCurve c.now }
    requires tail { c.now.tail ≡ Tail.Periodic rank period rise }
    requires window { (z : Sizes) × (end : ℚ) × HasWindow z end c.now × IsTimeIn z end t }
    ensures { TakesPeriodsOff rank period t result }
{
    let past = difference(t, rank);
    let n = quotient(past, period).whole_part();
    let by = product(n, period);
    Turn {
        n,
        by,
        early: difference(t, by),
    }
}

/// A time that may be missing, `by` later.
fn moved(next: Option<Frac>, by: Frac) -> Option<Frac>
    requires { NextMoves by next }
    ensures { result ≡ next_later by next }
{
    match next {
        None => None,
        Some(e) => Some(sum(e, by)),
    }
}

/// The value at t of a piece that starts, in its first period, at `early` or before, by the line it has in the period
/// of t.
fn copied_value(
    piece: &Piece,
    line: &Option<Line>,
    early: Frac,
    n: Frac,
    rise: Frac,
    t: Frac,
) -> Ext
    requires rises { ValueRises piece.now.at n rise }
    requires fits { LineFitsAt t line.now }
    ensures past { piece.now.x <ℚ early → result ≡ line_value line.now t }
    ensures start { early ≤ℚ piece.now.x → result ≡ piece.now.at +ₑ Extended.Fin (n *ℚ rise) }
{
    if is_less(piece.x, early) {
        line_value(*line, t)
    } else {
        risen(piece.at, n, rise)
    }
}

/// How a curve whose tail repeats goes on from t.
fn repeating_stretch(c: &Curve, rank: Frac, period: Frac, rise: Frac, t: Frac) -> Stretch
    requires curve { IsCurve c.now }
    requires tail { c.now.tail ≡ Tail.Periodic rank period rise }
    requires window { (z : Sizes) × (end : ℚ) × HasWindow z end c.now × IsTimeIn z end t }
    ensures goes { GoesOn (value_at c.now) t result }
    ensures times { (d : ℕ) → TimesStand d c.now → AtNext (Whole d) result.next }
    ensures sizes { (z : Sizes) (end : ℚ) → HasWindow z end c.now → IsTimeIn z end t
        → OperandLineAt z result.line × GridValue z result.at }
{
    let Turn { n, by, early } = turn_of(c, rank, period, rise, t);
    let end = sum(rank, period);
    let pieces = c.pieces();
    let piece = piece_at(pieces, early);
    let next = next_start(pieces, early, Some(end));
    let line = line_risen(&piece, by, n, rise);
    let at = copied_value(&piece, &line, early, n, rise, t);
    Stretch {
        at,
        line,
        next: moved(next, by),
    }
}

/// How a curve goes on from a time of a window: the value there, the line that follows, and until when. By binary
/// search in the pieces that are kept; nothing is unrolled, and no memory is taken. The window's sizes z are those of a
/// gauge below 2^120, its end is past what is kept of the curve, and t stands on its grid, from 0 on and before its
/// end. The next time stands on each grid on which the curve's rank, period and starts do.
pub fn stretch_at(c: &Curve, t: Frac) -> Stretch
    requires { (z : Sizes) × (end : ℚ) × HasWindow z end c.now × IsTimeIn z end t }
    ensures goes { GoesOn (value_at c.now) t result }
    ensures times { (d : ℕ) → TimesStand d c.now → AtNext (Whole d) result.next }
    ensures sizes { (z : Sizes) (end : ℚ) → HasWindow z end c.now → IsTimeIn z end t
        → OperandLineAt z result.line × GridValue z result.at }
{
    match *c.tail() {
        Tail::Periodic { rank, period, rise } => repeating_stretch(c, rank, period, rise, t),
        _ => plain_stretch(c.pieces(), t),
    }
}
