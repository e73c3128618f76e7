//! The curve that is 0 at each time.

ghost use Rattle.std.specs.Prelude.{◌≡◌, IsTrue};
ghost use Rattle.min_plus.specs.Functions.{zero_q};
ghost use Rattle.curve_call.specs.Levels.{level_curve};

use crate::pointwise::straight::straight_of;
use fraction128::Frac;
use upp_curve::Curve;

/// Whether a curve is the one that is 0 at each time, told by its one piece.
pub fn is_nought(c: &Curve) -> bool
    ensures { IsTrue result → c.now ≡ level_curve zero_q }
{
    let Some(s) = straight_of(c) else {
        return false;
    };
    let zero = Frac::zero();
    if s.at == zero {
        if s.line.icept == zero {
            return s.line.slope == zero;
        }
    }
    false
}
