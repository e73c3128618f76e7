//! The deconvolution of two windows.

ghost use Rattle.std.specs.Prelude.{IfOk};
ghost use Rattle.curve_deconv.specs.DeconvolutionWindows.{OperandWindows, IsPairsWindow, IsRaisedWindow};
ghost use Rattle.curve_deconv.specs.DeconvolutionWindows.{IsDeconvolutionWindow};

use crate::marks::{last_infinite, mark_pieces};
use crate::mirroring::{mirrored_pieces, negated_pieces};
use curve_call::window_sum;
use element_envelope::window_convolution_from;
use fraction128::Frac;
use plain_operators::pointwise::left_window;
use plain_operators::running::front_before;
use std::alloc::{AllocError, Global};
use upp_curve::affine_segment::{Piece, read};

/// Pieces, or want of memory.
pub(crate) type MadePieces = Result<Vec<Piece>, AllocError>;

// The least of g at u less f at t + u, over all u from 0 on and up to `reach` at which both are finite, at `reach`
// after t.
fn pairs_window(alloc: Global, f: &[Piece], g: &[Piece], reach: Frac, end: Frac) -> MadePieces
    requires { OperandWindows end reach f.now g.now }
    ensures { IfOk result (λ v. IsPairsWindow end reach f.now g.now v.items) }
{
    let turned = negated_pieces(alloc, f)?;
    let front = front_before(alloc, g, reach)?;
    let mirrored = mirrored_pieces(alloc, &front, reach, read(g, reach))?;
    window_convolution_from(alloc, &turned, &mirrored, reach, end)
}

// The same, and infinity where f is infinite at t or later.
fn raised_window(alloc: Global, f: &[Piece], g: &[Piece], reach: Frac, end: Frac) -> MadePieces
    requires { OperandWindows end reach f.now g.now }
    ensures { IfOk result (λ v. IsRaisedWindow end reach f.now g.now v.items) }
{
    let pairs = pairs_window(alloc, f, g, reach, end)?;
    let last = last_infinite(f, end);
    let marks = mark_pieces(alloc, last, reach, end)?;
    window_sum(alloc, &pairs, &marks)
}

/// The supremum of f at t + u less g at u over all u from 0 on and up to `reach`, at each t from 0 on that is more
/// than `reach` before `end`, as pieces; infinity where f is infinite at t or later. From the operands' unrolled
/// pieces below `end`; g is finite there. Only a lack of memory is an error.
pub(crate) fn window_deconvolution(
    alloc: Global,
    f: &[Piece],
    g: &[Piece],
    reach: Frac,
    end: Frac,
) -> MadePieces
    requires { OperandWindows end reach f.now g.now }
    ensures { IfOk result (λ v. IsDeconvolutionWindow end reach f.now g.now v.items) }
{
    let raised = raised_window(alloc, f, g, reach, end)?;
    let moved = left_window(alloc, &raised, reach)?;
    negated_pieces(alloc, &moved)
}
