//! Lines, and pieces of a curve.

ghost use Rattle.std.specs.Prelude.{◌≡◌, ◌↔◌, IfOk, IfErr, IfSome};
ghost use Rattle.upp_curve.specs.affine_segment.Values.{line_at};
ghost use Rattle.upp_curve.specs.affine_segment.Steps.{IsWideValue, IsWideCross};

use crate::affine_segment::short_line::short_value;
use fraction128::{Ext, Frac, Wide};

/// A line, by its value at 0 and its slope.
#[derive(Debug, Clone, Copy)]
pub struct Line {
    /// The value at 0.
    pub icept: Frac,
    /// The rise per unit of time.
    pub slope: Frac,
}

/// A start with its value, and the line after it, up to the next start; no line is infinity.
#[derive(Debug, Clone, Copy)]
pub struct Piece {
    /// The start.
    pub x: Frac,
    /// The value at the start.
    pub at: Ext,
    /// What follows the start.
    pub line: Option<Line>,
}

/// The value of a line at t. Refused only where slope times t, or its sum with the value at 0, does not fit.
// Most numbers are whole: written out where it is called, their value takes a few steps and no place in memory.
#[inline(always)]
pub fn value(line: &Line, t: Frac) -> Result<Frac, Wide>
    ensures value { IfOk result (λ v. v ≡ line_at line.now t) }
    ensures wide { IfErr result (IsWideValue line.now t) }
{
    // A level line, as of a stair, takes no product.
    if line.slope == Frac::zero() {
        return Ok(line.icept);
    }
    if line.slope.denominator() == 1 && t.denominator() == 1 && line.icept.denominator() == 1 {
        return value_by_steps(line, t);
    }
    value_apart(line, t)
}

// The value by its two steps.
#[inline(always)]
fn value_by_steps(line: &Line, t: Frac) -> Result<Frac, Wide>
    ensures value { IfOk result (λ v. v ≡ line_at line.now t) }
    ensures wide { IfErr result (IsWideValue line.now t) }
{
    let risen = Frac::mul(line.slope, t)?;
    Frac::add(line.icept, risen)
}

// A call of its own, so that only the value of whole numbers is written out where it is called.
#[inline(never)]
fn value_apart(line: &Line, t: Frac) -> Result<Frac, Wide>
    ensures value { IfOk result (λ v. v ≡ line_at line.now t) }
    ensures wide { IfErr result (IsWideValue line.now t) }
{
    match short_value(line, t) {
        Some(v) => Ok(v),
        None => value_by_steps(line, t),
    }
}

/// The time at which two lines meet; `None` exactly where their slopes are equal. Refused only where the difference of
/// their values at 0, that of their slopes, or the quotient of the two does not fit.
pub fn cross(a: &Line, b: &Line) -> Result<Option<Frac>, Wide>
    ensures parallel { (result ≡ Ok None) ↔ (a.now.slope ≡ b.now.slope) }
    ensures meet { IfOk result (λ found. IfSome found (λ t. line_at a.now t ≡ line_at b.now t)) }
    ensures wide { IfErr result (IsWideCross a.now b.now) }
{
    if a.slope == b.slope {
        return Ok(None);
    }
    let apart = Frac::sub(b.icept, a.icept)?;
    let closing = Frac::sub(a.slope, b.slope)?;
    let t = Frac::div(apart, closing)?;
    Ok(Some(t))
}
