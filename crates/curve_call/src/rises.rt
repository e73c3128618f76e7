//! By how much a curve rises over whole periods.

ghost use Rattle.std.specs.Prelude.{◌≡◌, ◌≢◌, pos};
ghost use Rattle.rational.specs.Rational.{int, ◌*ℚ◌, ◌/ℚ◌};
ghost use Rattle.rational.specs.Ratio.{IsSmall};
ghost use Rattle.upp_curve.specs.Steady.{last_line, rise_over, slope_times};
ghost use Rattle.curve_call.specs.Rises.{CurveRiseFits, SlopeTimesFits};

use fraction128::{Frac, product, quotient};
use upp_curve::affine_segment::Piece;
use upp_curve::{Curve, Tail};

// By how much the last line rises over d.
fn last_rise(pieces: &[Piece], d: Frac) -> Frac
    requires { SlopeTimesFits (last_line pieces.now) d }
    ensures { result ≡ slope_times (last_line pieces.now) d }
{
    match pieces.last() {
        None => Frac::zero(),
        Some(piece) => match piece.line {
            None => Frac::zero(),
            Some(line) => product(line.slope, d),
        },
    }
}

/// By how much the tail of a curve rises over d, where d is a whole number of its periods.
pub fn rise_over(c: &Curve, d: Frac) -> Frac
    requires { CurveRiseFits c.now d }
    ensures { result ≡ rise_over c.now d }
{
    match c.tail() {
        Tail::Periodic {
            rank: _,
            period,
            rise,
        } => product(*rise, quotient(d, *period)),
        Tail::Affine { rank: _ } => last_rise(c.pieces(), d),
        Tail::Infinite { rank: _ } => Frac::zero(),
    }
}
