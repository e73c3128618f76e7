//! How pieces are read at a time.

ghost use Rattle.std.specs.Prelude.{◌≡◌, pos, List, ◌∷◌, IfOk, IfErr};
ghost use Rattle.rational.specs.Rational.{ℚ, int, ◌≤ℚ◌, ◌<ℚ◌, le_q};
ghost use Rattle.rational.specs.Extended.{◌+ₑ◌};
ghost use Rattle.rational.specs.Whole.{periods};
ghost use Rattle.upp_curve.specs.affine_segment.Values.{line_value};
ghost use Rattle.upp_curve.specs.affine_segment.Reading.{piece_in, piece_value, read};
ghost use Rattle.upp_curve.specs.Curve.{repeated};
ghost use Rattle.upp_curve.specs.affine_segment.Pieces.{StartsAtZero};
ghost use Rattle.upp_curve.specs.Steps.{IsWideLine, IsWideRead, IsWideRise, IsWidePeriods, IsWidePast};

use crate::affine_segment::{Line, Piece, piece_at, value};
use fraction128::{Ext, Frac, Wide};
use rational::Extended;
use std::cmp::Ordering;

// The value at t of a line that may be missing.
pub(crate) fn line_value(line: Option<Line>, t: Frac) -> Result<Ext, Wide>
    ensures value { IfOk result (λ v. v ≡ line_value line t) }
    ensures wide { IfErr result (IsWideLine line t) }
{
    match line {
        None => Ok(Extended::Inf),
        Some(l) => Ok(Extended::Fin(value(&l, t)?)),
    }
}

pub(crate) fn piece_value(p: &Piece, t: Frac) -> Result<Ext, Wide>
    ensures value { IfOk result (λ v. v ≡ piece_value p.now t) }
    ensures wide { IfErr result (IsWideLine p.now.line t) }
{
    match t.cmp(&p.x) {
        Ordering::Greater => line_value(p.line, t),
        _ => Ok(p.at),
    }
}

// The value at t of pieces from 0 on.
pub(crate) fn read(pieces: &[Piece], t: Frac) -> Result<Ext, Wide>
    requires starts { StartsAtZero pieces.now }
    requires time { int (pos 0) ≤ℚ t }
    ensures value { IfOk result (λ v. v ≡ read pieces.now t) }
    ensures wide { IfErr result (IsWideRead pieces.now t) }
{
    piece_value(&piece_at(pieces, t), t)
}

// A value, risen.
pub(crate) fn raised(v: Ext, by: Frac) -> Result<Ext, Wide>
    ensures value { IfOk result (λ r. r ≡ v +ₑ Extended.Fin by) }
    ensures wide { IfErr result (IsWideRise v by) }
{
    match v {
        Extended::Inf => Ok(Extended::Inf),
        Extended::Fin(x) => Ok(Extended::Fin(Frac::add(x, by)?)),
    }
}

// How many whole periods lie between the rank and t.
fn periods(rank: Frac, period: Frac, t: Frac) -> Result<Frac, Wide>
    requires { int (pos 0) <ℚ period }
    ensures value { IfOk result (λ n. n ≡ int (pos (periods rank period t))) }
    ensures wide { IfErr result (IsWidePeriods rank period t) }
{
    let past = Frac::sub(t, rank)?;
    let ratio = Frac::div(past, period)?;
    Ok(ratio.whole_part())
}

// The value past the rank of a periodic tail: that as many whole periods earlier, risen as many times.
pub(crate) fn read_past(
    pieces: &[Piece],
    rank: Frac,
    period: Frac,
    rise: Frac,
    t: Frac,
) -> Result<Ext, Wide>
    requires starts { StartsAtZero pieces.now }
    requires rank { int (pos 0) ≤ℚ rank }
    requires period { int (pos 0) <ℚ period }
    requires past { rank <ℚ t }
    ensures value { IfOk result (λ v. v ≡ repeated (read pieces.now) rank period rise t) }
    ensures wide { IfErr result (IsWidePast pieces.now rank period rise t (int (pos (periods rank period t)))) }
{
    let n = periods(rank, period, t)?;
    let back = Frac::mul(n, period)?;
    let early = Frac::sub(t, back)?;
    let base = read(pieces, early)?;
    let by = Frac::mul(n, rise)?;
    raised(base, by)
}
