//! The closure of a line on an open stretch.

ghost use Rattle.std.specs.Prelude.{◌≡◌, ◌≤◌, ◌+◌, ◌^◌, ℕ, suc, Some};
ghost use Rattle.upp_curve.specs.affine_segment.Fits.{LineFitsAt};
ghost use Rattle.rational.specs.Rational.{◌≤ℚ◌, ◌<ℚ◌};
ghost use Rattle.upp_curve.specs.declared.affine_segment.element.Element.TheVariants.{Open};
ghost use Rattle.min_plus.specs.Functions.{zero_q};
ghost use Rattle.upp_curve.specs.Normal.{IsRaw, IsNormal};
ghost use Rattle.upp_normal.specs.Normalising.{raw_curve};
ghost use Rattle.upp_limits.specs.Limits.{own_tally};
ghost use Rattle.subadd_closure.specs.ElementCurves.{level_closure, rising_closure, falling_closure};
ghost use Rattle.min_plus.specs.closure_laws.Star.{nat_times};
ghost use Rattle.subadd_closure.specs.PieceFits.{IsMade, Turns};
ghost use Rattle.subadd_closure.specs.ElementAnswers.{ClosureAnswer, IsOpenPart};

use crate::multiples::{falling_turn, rising_turn, value_on, whole_times};
use crate::stretches::{all_stretches, slopes_read, started, with_last};
use fraction128::{Ext, Frac, is_less};
use rational::Extended;
use std::alloc::Global;
use std::cmp::Ordering;
use upp_curve::affine_segment::{Line, Piece};
use upp_curve::{Curve, Tail};
use upp_limits::OpFault;
use upp_normal::{RawCurve, normalise};

/// The normal form of a curve with few pieces that repeats.
pub(crate) fn made(raw: RawCurve) -> Result<Curve, OpFault>
    requires raw { IsRaw (raw_curve raw) }
    requires turns { Turns raw.tail }
    requires few { own_tally (raw_curve raw) ≤ 2 ^ 20 }
    ensures { IsMade (raw_curve raw) result }
{
    match normalise(raw) {
        Ok(c) => {
            c.keeps();
            Ok(c)
        }
        Err(fault) => Err(fault),
    }
}

// A line of the slope alone, from the last stretch on.
fn level(alloc: Global, a: Frac, b: Frac, line: &Line, m: u64) -> Result<Curve, OpFault>
    requires few { m + 3 ≤ 2 ^ 19 }
    requires flat { line.now.icept ≡ zero_q }
    requires apart { (i : ℕ) → 1 ≤ i → suc i ≤ suc m → nat_times i b ≤ℚ nat_times (suc i) a }
    requires normal { IsNormal (level_closure a b line.now m) }
    ensures { IsMade (level_closure a b line.now m) result }
{
    let pieces = all_stretches(alloc, a, b, line, m)?;
    let Some(rank) = whole_times(m + 1, a) else {
        return Err(OpFault::TooWide);
    };
    if !slopes_read(&pieces) {
        return Err(OpFault::TooWide);
    }
    let tail = Tail::Affine { rank };
    Ok(Curve::from_normal(pieces, tail))
}

// One value of a line is the least.
fn single(alloc: Global, a: Frac, line: &Line) -> Result<Curve, OpFault>
    requires reads { LineFitsAt a (Some line.now) }
    requires normal { IsNormal (level_closure a zero_q line.now 0) }
    ensures { IsMade (level_closure a zero_q line.now 0) result }
{
    let first = Piece {
        x: a,
        at: Extended::Inf,
        line: Some(*line),
    };
    let pieces = started(alloc, a, first)?;
    let tail = Tail::Affine { rank: a };
    Ok(Curve::from_normal(pieces, tail))
}

// One value more from each n b on.
fn rising(alloc: Global, a: Frac, b: Frac, line: &Line, m: u64) -> Result<Curve, OpFault>
    requires few { m + 3 ≤ 2 ^ 19 }
    requires apart { (i : ℕ) → 1 ≤ i → suc i ≤ suc m → nat_times i b ≤ℚ nat_times (suc i) a }
    requires some { zero_q <ℚ b }
    requires normal { IsNormal (rising_closure a b line.now m) }
    ensures { IsMade (rising_closure a b line.now m) result }
{
    let pieces = all_stretches(alloc, a, b, line, m)?;
    let Some(last) = rising_turn(b, line, m + 1) else {
        return Err(OpFault::TooWide);
    };
    let Some(rise) = value_on(line, b) else {
        return Err(OpFault::TooWide);
    };
    let tail = Tail::Periodic {
        rank: last.x,
        period: b,
        rise,
    };
    let pieces = with_last(pieces, last)?;
    made(RawCurve { pieces, tail })
}

// One value more past each n a.
fn falling(alloc: Global, a: Frac, b: Frac, line: &Line, m: u64) -> Result<Curve, OpFault>
    requires few { m + 3 ≤ 2 ^ 19 }
    requires apart { (i : ℕ) → 1 ≤ i → suc i ≤ suc m → nat_times i b ≤ℚ nat_times (suc i) a }
    requires some { zero_q <ℚ a }
    requires normal { IsNormal (falling_closure a b line.now m) }
    ensures { IsMade (falling_closure a b line.now m) result }
{
    let pieces = all_stretches(alloc, a, b, line, m)?;
    let Some(last) = falling_turn(a, line, m + 1) else {
        return Err(OpFault::TooWide);
    };
    let Some(rise) = value_on(line, a) else {
        return Err(OpFault::TooWide);
    };
    let tail = Tail::Periodic {
        rank: last.x,
        period: a,
        rise,
    };
    let pieces = with_last(pieces, last)?;
    made(RawCurve { pieces, tail })
}

// The closure of a line up to an end.
fn ended(alloc: Global, a: Frac, b: Frac, line: &Line, m: u64) -> Result<Curve, OpFault>
    requires part { IsOpenPart a (Extended.Fin b) line.now m }
    requires few { m + 3 ≤ 2 ^ 19 }
    ensures { ClosureAnswer (Open a (Extended.Fin b) line.now) result }
{
    match line.icept.cmp(&Frac::zero()) {
        Ordering::Less => falling(alloc, a, b, line, m),
        Ordering::Equal => level(alloc, a, b, line, m),
        Ordering::Greater => rising(alloc, a, b, line, m),
    }
}

// The closure of a line without an end.
fn endless(alloc: Global, a: Frac, line: &Line) -> Result<Curve, OpFault>
    requires part { IsOpenPart a Extended.Inf line.now 0 }
    requires reads { LineFitsAt a (Some line.now) }
    ensures { ClosureAnswer (Open a Extended.Inf line.now) result }
{
    if is_less(line.icept, Frac::zero()) {
        return falling(alloc, a, Frac::zero(), line, 0);
    }
    single(alloc, a, line)
}

/// The closure of a line between the times a and b: at t the least sum of n of its values at times whose sum is t, for
/// whole n from 1 on, and infinity where no n has n a < t < n b (Bouillard, Boyer and Le Corronc). `m` is how many of
/// the stretches from n a up to n b end before the next begins, or just there; the line is readable at a, and a line
/// that is below 0 at 0 starts after 0. Refused with TooWide only where no call within the limits could take that
/// curve, and for want of memory.
pub fn segment_closure(
    alloc: Global,
    a: Frac,
    b: Ext,
    line: &Line,
    m: u64,
) -> Result<Curve, OpFault>
    requires part { IsOpenPart a b line.now m }
    requires reads { LineFitsAt a (Some line.now) }
    requires few { m + 3 ≤ 2 ^ 19 }
    ensures { ClosureAnswer (Open a b line.now) result }
{
    match b {
        Extended::Fin(end) => ended(alloc, a, end, line, m),
        Extended::Inf => endless(alloc, a, line),
    }
}
