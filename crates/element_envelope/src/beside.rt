//! The lesser of a window and of what all pairs of two lists of elements make.

ghost use Rattle.std.specs.Prelude.{IfOk};
ghost use Rattle.element_envelope.specs.EnvelopeWindows.{BesideRoom, IsLowerEnvelope};

use crate::least::{MadePieces, envelope};
use curve_call::window_lower;
use fraction128::Frac;
use std::alloc::Global;
use upp_curve::affine_segment::{Element, Piece};

/// The lesser of a window and of the least of what all pairs of two lists of elements make, at each time from 0 on and
/// before `end`, as pieces. Only a lack of memory is an error.
pub fn lower_envelope(
    alloc: Global,
    own: &[Piece],
    xs: &[Element],
    ys: &[Element],
    end: Frac,
) -> MadePieces
    requires { BesideRoom end own.now xs.now ys.now }
    ensures { IfOk result (λ v. IsLowerEnvelope end own.now xs.now ys.now v.items) }
{
    let pairs = envelope(alloc, xs, ys, end)?;
    window_lower(alloc, own, &pairs, end)
}
