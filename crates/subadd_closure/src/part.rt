//! The parts of a curve.

ghost use Rattle.std.specs.Prelude.{◌≡◌, IfOk};
ghost use Rattle.rational.specs.Rational.{◌+ℚ◌};
ghost use Rattle.rational.specs.Ratio.{SumFits};
ghost use Rattle.upp_curve.specs.affine_segment.Elements.{start_of};
ghost use Rattle.subadd_closure.specs.CurveParts.{pieces_end, copies_of, part_of};
ghost use Rattle.element_envelope.specs.PieceElements.{elements_of};

use element_envelope::cut;
use fraction128::{Ext, Frac, is_less, sum};
use rational::Extended;
use std::alloc::{AllocError, Global};
use upp_curve::affine_segment::{Element, start_of};
use upp_curve::{Curve, Tail};

/// Copies, each a period later and a rise higher than the one before.
#[derive(Debug, Clone, Copy)]
pub struct Copies {
    /// Above 0.
    pub period: Frac,
    /// By how much each is higher.
    pub rise: Frac,
}

/// A point or an open segment of a curve, with its copies where it has any.
#[derive(Debug, Clone, Copy)]
pub struct Part {
    /// The point or the segment.
    pub element: Element,
    /// `None` where the curve has it once.
    pub copies: Option<Copies>,
}

// Where the pieces of a curve end: one period after the rank, or nowhere.
fn pieces_end(f: &Curve) -> Ext
    ensures { result ≡ pieces_end f.now.tail }
{
    match *f.tail() {
        Tail::Periodic {
            rank,
            period,
            rise: _,
        } => Extended::Fin(sum(rank, period)),
        Tail::Affine { rank: _ } => Extended::Inf,
        Tail::Infinite { rank: _ } => Extended::Inf,
    }
}

// The copies of an element of a curve with this tail.
fn copies_of(tail: &Tail, e: &Element) -> Option<Copies>
    ensures { result ≡ copies_of tail.now e.now }
{
    match *tail {
        Tail::Periodic { rank, period, rise } => {
            if is_less(start_of(e), rank) {
                None
            } else {
                Some(Copies { period, rise })
            }
        }
        Tail::Affine { rank: _ } => None,
        Tail::Infinite { rank: _ } => None,
    }
}

/// An element of a curve with this tail, with its copies: it has them where the tail is periodic and it starts at the
/// rank or later.
pub fn part_of(tail: &Tail, e: &Element) -> Part
    ensures { result ≡ part_of tail.now e.now }
{
    Part {
        element: *e,
        copies: copies_of(tail, e),
    }
}

/// The points and open segments of a curve by their starts, a point before the segment after it: those before the
/// rank, and those of one period from the rank on; the last segment of an affine tail has no end. Refused only for want
/// of memory.
pub fn elements(alloc: Global, f: &Curve) -> Result<Vec<Element>, AllocError>
    ensures { IfOk result (λ es. es.items ≡ elements_of f.now.pieces (pieces_end f.now.tail)) }
{
    cut(alloc, f.pieces(), pieces_end(f))
}
