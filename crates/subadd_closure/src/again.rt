//! The call of a convolution once more: its pieces below the end of its window, and by how much it rises over a period.

ghost use Rattle.std.specs.Prelude.{◌≡◌, IfOk, IfSome};
ghost use Rattle.rational.specs.Extended.{◌<ₑ◌};
ghost use Rattle.upp_curve.specs.affine_segment.Reading.{read};
ghost use Rattle.upp_curve.specs.Curve.{value_at};
ghost use Rattle.upp_curve.specs.Curves.{IsCurve};
ghost use Rattle.upp_curve.specs.Steady.{rate, rise_over};
ghost use Rattle.upp_curve.specs.Unrolled.{unroll};
ghost use Rattle.element_envelope.specs.ConvolutionWindows.{OperandWindows, IsConvolutionWindow};
ghost use Rattle.element_envelope.specs.PieceElements.{elements_of};
ghost use Rattle.curve_conv.specs.ConvolveCall.{IsConvolveFrame};
ghost use Rattle.plain_operators.specs.pointwise.Lattice.{RisesBy};
ghost use Rattle.subadd_closure.specs.Thinned.{AreThinnable, IsReady, MayThin};

use crate::covered::covered;
use crate::ordered::is_worth_walks;
use crate::thinned::thinned;
use crate::useful::useful;
use curve_call::{Frame, rise_over};
use curve_conv::is_slower_curve;
use element_envelope::{cut, envelope, lower_envelope, window_convolution};
use fraction128::Frac;
use rational::Extended;
use std::alloc::{AllocError, Global};
use upp_curve::Curve;
use upp_curve::affine_segment::{Element, Piece};
use upp_normal::unrolled;

/// Two operands of a convolution: their pieces, their elements, and those of the second that are not left out.
#[derive(Clone, Copy)]
pub(crate) struct Operands<'a> {
    /// The first.
    pub(crate) f: &'a Curve,
    /// The second.
    pub(crate) g: &'a Curve,
    /// The pieces of the first that start below the end.
    pub(crate) left: &'a [Piece],
    /// Those of the second.
    pub(crate) right: &'a [Piece],
    /// The elements of the first.
    pub(crate) xs: &'a [Element],
    /// Those of the second.
    pub(crate) ys: &'a [Element],
    /// Those of the second that are not nowhere below the first.
    pub(crate) late: &'a [Element],
    /// Where the window ends.
    pub(crate) end: Frac,
}

// The pieces of the convolution: where at most half of the second operand's elements are left, as the lesser of the first
// operand and of what they make with those of the first that may make something below it.
fn late_window(alloc: Global, w: &Operands) -> Result<Vec<Piece>, AllocError>
    requires { IsReady w.now }
    ensures { IfOk result (λ ps. IsConvolutionWindow w.now.left.now w.now.right.now w.now.end ps.items) }
{
    if w.late.len() > w.ys.len() / 2 {
        return window_convolution(alloc, w.left, w.right, w.end);
    }
    let kept = useful(alloc, w.left, w.xs, w.late, w.end)?;
    lower_envelope(alloc, w.left, &kept, w.late, w.end)
}

// The same by the elements of the first operand that are not nowhere below what it makes with few of the second, where
// there are fewer pairs of them.
fn covered_window(alloc: Global, w: &Operands) -> Result<Vec<Piece>, AllocError>
    requires { IsReady w.now }
    ensures { IfOk result (λ ps. IsConvolutionWindow w.now.left.now w.now.right.now w.now.end ps.items) }
{
    let early = covered(alloc, w.xs, w.ys, w.end)?;
    if early.len().saturating_mul(w.ys.len()) < w.xs.len().saturating_mul(w.late.len()) {
        return envelope(alloc, &early, w.ys, w.end);
    }
    late_window(alloc, w)
}

/// The pieces of the convolution, of which `left` and `right` are the operands' pieces. Where `thin` is set, the elements of
/// the second are left out that are nowhere below the first, or those of the first that are nowhere below what it makes with
/// few of the second, where that leaves fewer pairs. Refused only for want of memory.
pub(crate) fn window_between(
    alloc: Global,
    f: &Curve,
    g: &Curve,
    left: &[Piece],
    right: &[Piece],
    end: Frac,
    thin: bool,
) -> Result<Vec<Piece>, AllocError>
    requires curves { IsCurve f.now × IsCurve g.now }
    requires windows { OperandWindows end left.now right.now }
    requires first { left.now ≡ unroll f.now end }
    requires second { right.now ≡ unroll g.now end }
    requires thin { MayThin thin f.now g.now }
    ensures { IfOk result (λ ps. IsConvolutionWindow left.now right.now end ps.items) }
{
    if !thin {
        return window_convolution(alloc, left, right, end);
    }
    let ys = cut(alloc, right, Extended::Inf)?;
    let late = thinned(alloc, left, &ys, end)?;
    let xs = cut(alloc, left, Extended::Inf)?;
    let w = Operands {
        f,
        g,
        left,
        right,
        xs: xs.as_slice(),
        ys: ys.as_slice(),
        late: late.as_slice(),
        end,
    };
    // What is made with few elements costs as much as few pairs of each.
    if late.len() > 8 {
        return covered_window(alloc, &w);
    }
    late_window(alloc, &w)
}

/// The pieces of the convolution that start below the end of the window. Where `thin` is set, what of the second operand
/// is nowhere below the first is left out on the way. Refused only for want of memory.
pub(crate) fn window_of(
    alloc: Global,
    f: &Curve,
    g: &Curve,
    frame: &Frame,
    thin: bool,
) -> Result<Vec<Piece>, AllocError>
    requires frame { IsConvolveFrame f.now g.now frame.now }
    requires thin { MayThin thin f.now g.now }
    ensures { IfOk result (λ ps. IsConvolutionWindow (unroll f.now frame.now.end) (unroll g.now frame.now.end)
        frame.now.end ps.items) }
{
    let left = unrolled(f, frame.end)?;
    let right = unrolled(g, frame.end)?;
    window_between(alloc, f, g, &left, &right, frame.end, thin)
}

// As `few_window`, of which `left` and `right` are the operands' pieces.
fn few_between(
    alloc: Global,
    f: &Curve,
    g: &Curve,
    left: &[Piece],
    right: &[Piece],
    end: Frac,
) -> Result<Option<Vec<Piece>>, AllocError>
    requires curves { IsCurve f.now × IsCurve g.now }
    requires windows { OperandWindows end left.now right.now }
    requires first { left.now ≡ unroll f.now end }
    requires second { right.now ≡ unroll g.now end }
    requires thin { AreThinnable f.now g.now }
    ensures { IfOk result (λ o. IfSome o (λ ps. IsConvolutionWindow left.now right.now end ps.items)) }
{
    let ys = cut(alloc, right, Extended::Inf)?;
    let late = thinned(alloc, left, &ys, end)?;
    if late.len().saturating_mul(left.len()) > left.len().saturating_add(right.len()) {
        return Ok(None);
    }
    let xs = cut(alloc, left, Extended::Inf)?;
    let w = Operands {
        f,
        g,
        left,
        right,
        xs: xs.as_slice(),
        ys: ys.as_slice(),
        late: late.as_slice(),
        end,
    };
    let pieces = late_window(alloc, &w)?;
    Ok(Some(pieces))
}

/// The pieces of the convolution that start below the end of the window, where `thin` is set, walks are worth their cost, and
/// no more pairs are left to be looked at than there are pieces, so that they cost less than the walks; none elsewhere. Refused
/// only for want of memory.
pub(crate) fn few_window(
    alloc: Global,
    f: &Curve,
    g: &Curve,
    frame: &Frame,
    thin: bool,
) -> Result<Option<Vec<Piece>>, AllocError>
    requires frame { IsConvolveFrame f.now g.now frame.now }
    requires thin { MayThin thin f.now g.now }
    ensures { IfOk result (λ o. IfSome o (λ ps. IsConvolutionWindow (unroll f.now frame.now.end) (unroll g.now frame.now.end)
        frame.now.end ps.items)) }
{
    if !thin || !is_worth_walks(f, g, frame.end) {
        return Ok(None);
    }
    let left = unrolled(f, frame.end)?;
    let right = unrolled(g, frame.end)?;
    few_between(alloc, f, g, &left, &right, frame.end)
}

/// By how much the slower of the two curves, and so the convolution, rises over a period.
pub(crate) fn slower_rise(f: &Curve, g: &Curve, frame: &Frame) -> Frac
    requires { IsConvolveFrame f.now g.now frame.now }
    ensures { RisesBy (rate g.now <ₑ rate f.now) (rise_over g.now frame.now.period) (rise_over f.now frame.now.period)
        result }
{
    if is_slower_curve(g, f) {
        return rise_over(g, frame.period);
    }
    rise_over(f, frame.period)
}
