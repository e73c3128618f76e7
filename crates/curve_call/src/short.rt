//! Steps of short whole numbers, made without a look at whether they fit.

ghost use Rattle.std.specs.Prelude.{◌≡◌, ◌<◌, ◌^◌, nat_abs, IsTrue, IfSome};
ghost use Rattle.rational.specs.Rational.{◌*ℚ◌, den};
ghost use Rattle.upp_curve.specs.affine_segment.Values.{line_at};
ghost use Rattle.curve_call.specs.Short.{IsShort};

use fraction128::{Frac, product, sum};
use upp_curve::affine_segment::Line;

/// A number from here on is not short.
const LONG: u128 = 1 << 62;

/// Whether it is a whole number below 2^62 in size.
#[inline(always)]
fn is_short(x: Frac) -> bool
    ensures { IsTrue result → IsShort x }
{
    let bottom = x.denominator();
    let top = x.numerator_size();
    bottom == 1 && top < LONG
}

/// The product of short numbers; none of others.
#[inline(always)]
pub(crate) fn short_product(x: Frac, y: Frac) -> Option<Frac>
    ensures { IfSome result (λ p. p ≡ x *ℚ y) }
{
    if is_short(x) && is_short(y) {
        return Some(product(x, y));
    }
    None
}

/// The value at x of a line, where its numbers and x are short.
#[inline(always)]
pub(crate) fn short_value(line: &Line, x: Frac) -> Option<Frac>
    ensures { IfSome result (λ v. v ≡ line_at line.now x) }
{
    if is_short(line.icept) && is_short(line.slope) && is_short(x) {
        return Some(sum(line.icept, product(line.slope, x)));
    }
    None
}
