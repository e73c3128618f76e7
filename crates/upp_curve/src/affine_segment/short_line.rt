//! The value of a line over one denominator, of short numbers: one common divisor is looked for in place of four.

ghost use Rattle.std.specs.Prelude.{◌≡◌, ◌<◌, ◌^◌, pos, ◌+ℤ◌, ◌*ℤ◌, unsigned_abs, ◌↔◌, IsTrue, IfSome};
ghost use Rattle.rational.specs.Rational.{den};
ghost use Rattle.upp_curve.specs.affine_segment.Values.{line_at};
ghost use Rattle.upp_curve.specs.affine_segment.Short.{HasShortParts, LineHasShortParts};

use crate::affine_segment::line::Line;
use fraction128::Frac;

/// A numerator below this is short.
const LONG: u128 = 1 << 40;

/// A denominator below this is short.
const FINE: u128 = 1 << 20;

/// Whether both parts of a fraction are short.
#[inline(always)]
fn has_short_parts(x: Frac) -> bool
    ensures { IsTrue result ↔ HasShortParts x }
{
    let top = x.numerator_size();
    let bottom = x.denominator();
    top < LONG && bottom < FINE
}

/// Whether both numbers of a line are short.
#[inline(always)]
fn line_has_short_parts(line: &Line) -> bool
    ensures { IsTrue result ↔ LineHasShortParts line.now }
{
    has_short_parts(line.icept) && has_short_parts(line.slope)
}

/// The number, with a sign.
#[inline(always)]
fn signed(n: u128) -> i128
    requires { n < 2 ^ 127 }
    ensures { result ≡ pos n }
{
    n as i128
}

/// a b, where it fits.
#[inline(always)]
fn times(a: i128, b: i128) -> i128
    requires { unsigned_abs (a *ℤ b) < 2 ^ 127 }
    ensures { result ≡ a *ℤ b }
{
    a * b
}

/// a + b, where it fits.
#[inline(always)]
fn plus(a: i128, b: i128) -> i128
    requires { unsigned_abs (a +ℤ b) < 2 ^ 127 }
    ensures { result ≡ a +ℤ b }
{
    a + b
}

/// The product of two short denominators.
#[inline(always)]
fn both_under(a: u128, b: u128) -> i128
    requires left { a < 2 ^ 20 }
    requires right { b < 2 ^ 20 }
    ensures { result ≡ pos a *ℤ pos b }
{
    let left = signed(a);
    let right = signed(b);
    times(left, right)
}

/// The value at 0, over all three denominators.
#[inline(always)]
fn start_over(line: &Line, t: Frac) -> i128
    requires line { LineHasShortParts line.now }
    requires time { HasShortParts t }
    ensures { result ≡ line.now.icept.num *ℤ (pos (den line.now.slope) *ℤ pos (den t)) }
{
    let left = line.slope.denominator();
    let right = t.denominator();
    let over = both_under(left, right);
    let level = line.icept.numerator();
    times(level, over)
}

/// The rise, over all three denominators.
#[inline(always)]
fn rise_over(line: &Line, t: Frac) -> i128
    requires line { LineHasShortParts line.now }
    requires time { HasShortParts t }
    ensures { result ≡ (line.now.slope.num *ℤ t.num) *ℤ pos (den line.now.icept) }
{
    let slope = line.slope.numerator();
    let time = t.numerator();
    let run = times(slope, time);
    let bottom = line.icept.denominator();
    let base = signed(bottom);
    times(run, base)
}

/// The product of all three denominators.
#[inline(always)]
fn all_under(line: &Line, t: Frac) -> i128
    requires line { LineHasShortParts line.now }
    requires time { HasShortParts t }
    ensures { result ≡ pos (den line.now.icept) *ℤ (pos (den line.now.slope) *ℤ pos (den t)) }
{
    let left = line.slope.denominator();
    let right = t.denominator();
    let over = both_under(left, right);
    let bottom = line.icept.denominator();
    let base = signed(bottom);
    times(base, over)
}

/// The value over the product of the three denominators, in lowest terms.
#[inline(always)]
fn value_over(line: &Line, t: Frac) -> Option<Frac>
    requires line { LineHasShortParts line.now }
    requires time { HasShortParts t }
    ensures { IfSome result (λ v. v ≡ line_at line.now t) }
{
    let start = start_over(line, t);
    let rise = rise_over(line, t);
    let whole = plus(start, rise);
    let under = all_under(line, t);
    match Frac::new(whole, under) {
        Ok(v) => Some(v),
        Err(_) => None,
    }
}

/// The value, where all numbers are short.
#[inline(always)]
pub(crate) fn short_value(line: &Line, t: Frac) -> Option<Frac>
    ensures { IfSome result (λ v. v ≡ line_at line.now t) }
{
    if has_short_parts(t) && line_has_short_parts(line) {
        return value_over(line, t);
    }
    None
}
