//! A piece moved in time and height, where each step is known to fit.

ghost use Rattle.std.specs.Prelude.{◌≡◌};
ghost use Rattle.rational.specs.Extended.{◌+ₑ◌};
ghost use Rattle.upp_curve.specs.Readable.{SumFitsAt};
ghost use Rattle.upp_curve.specs.Unrolled.{line_later, later};
ghost use Rattle.upp_curve.specs.Fitting.{LaterFits, LineLaterFits};

use crate::affine_segment::{Line, Piece};
use fraction128::{Ext, Frac, difference, product, sum};
use rational::Extended;

/// A value, risen.
#[inline(always)]
pub(crate) fn raised(v: Ext, by: Frac) -> Ext
    requires { SumFitsAt v by }
    ensures { result ≡ v +ₑ Extended.Fin by }
{
    match v {
        Extended::Inf => Extended::Inf,
        Extended::Fin(x) => Extended::Fin(sum(x, by)),
    }
}

/// The line, `by` later and `rise` higher.
#[inline(always)]
pub fn line_later(by: Frac, rise: Frac, line: Option<Line>) -> Option<Line>
    requires { LineLaterFits by rise line }
    ensures { result ≡ line_later by rise line }
{
    match line {
        None => None,
        Some(l) => {
            let risen = sum(l.icept, rise);
            // A level line, as of a stair, takes no product.
            if l.slope == Frac::zero() {
                return Some(Line {
                    icept: risen,
                    slope: l.slope,
                });
            }
            let back = product(l.slope, by);
            Some(Line {
                icept: difference(risen, back),
                slope: l.slope,
            })
        }
    }
}

/// The piece, `by` later and `rise` higher.
#[inline(always)]
pub fn later(by: Frac, rise: Frac, p: &Piece) -> Piece
    requires { LaterFits by rise p.now }
    ensures { result ≡ later by rise p.now }
{
    let x = sum(p.x, by);
    let at = raised(p.at, rise);
    let line = line_later(by, rise, p.line);
    Piece { x, at, line }
}
