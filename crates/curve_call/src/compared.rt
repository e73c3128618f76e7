//! The lower, the upper and the excess of two windows.

ghost use Rattle.std.specs.Prelude.{true, false, IfOk};
ghost use Rattle.rational.specs.Extended.{min_ext, max_ext};
ghost use Rattle.min_plus.specs.Pointwise.{excess};
ghost use Rattle.curve_call.specs.Made.{made_value, made_rises};
ghost use Rattle.curve_call.specs.Operands.{HaveSizes, IsMadeOf};

use crate::made::{Made, MadePieces, made_of};
use fraction128::Frac;
use std::alloc::Global;
use upp_curve::affine_segment::Piece;

fn window_made(alloc: Global, made: Made, f: &[Piece], g: &[Piece], end: Frac) -> MadePieces
    requires { HaveSizes end f.now g.now }
    ensures { IfOk result (λ v. IsMadeOf (made_value made) (made_rises made) f.now g.now end v.items) }
{
    made_of(alloc, made, f, g, end)
}

/// The lower of two windows at each time from 0 on and before `end`. Only a lack of memory is an error.
pub fn window_min(alloc: Global, f: &[Piece], g: &[Piece], end: Frac) -> MadePieces
    requires { HaveSizes end f.now g.now }
    ensures { IfOk result (λ v. IsMadeOf min_ext false f.now g.now end v.items) }
{
    window_made(alloc, Made::Lower, f, g, end)
}

/// The upper of two windows at each time from 0 on and before `end`. Only a lack of memory is an error.
pub fn window_max(alloc: Global, f: &[Piece], g: &[Piece], end: Frac) -> MadePieces
    requires { HaveSizes end f.now g.now }
    ensures { IfOk result (λ v. IsMadeOf max_ext true f.now g.now end v.items) }
{
    window_made(alloc, Made::Upper, f, g, end)
}

/// What the first window has above the second at each time from 0 on and before `end`: 0 where it has nothing above it,
/// or the second is infinite. Only a lack of memory is an error.
pub fn window_excess(alloc: Global, f: &[Piece], g: &[Piece], end: Frac) -> MadePieces
    requires { HaveSizes end f.now g.now }
    ensures { IfOk result (λ v. IsMadeOf excess true f.now g.now end v.items) }
{
    window_made(alloc, Made::Excess, f, g, end)
}
