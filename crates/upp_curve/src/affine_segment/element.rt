//! The elements of a curve, and what two of them make.

ghost use Rattle.std.specs.Prelude.{◌≡◌};
ghost use Rattle.upp_curve.specs.affine_segment.Elements.{start_of};

use crate::affine_segment::line::Line;
use fraction128::{Ext, Frac};

/// A part of a curve that is one point, or one line without its ends.
#[derive(Debug, Clone, Copy)]
pub enum Element {
    /// The value `v` at the time `x`, and none at any other.
    Point { x: Frac, v: Frac },
    /// The line strictly between `from` and `to`, and no value elsewhere.
    Open { from: Frac, to: Ext, line: Line },
}

/// What two elements make: one part, or two with a point between them.
#[derive(Debug, Clone, Copy)]
pub struct Joined {
    /// The first part.
    pub first: Element,
    /// The point at its end; `None` where no second part follows.
    pub join: Option<Element>,
    /// The part after that point.
    pub second: Option<Element>,
}

/// Where an element starts.
pub fn start_of(e: &Element) -> Frac
    ensures { result ≡ start_of e.now }
{
    match *e {
        Element::Point { x, v: _ } => x,
        Element::Open {
            from,
            to: _,
            line: _,
        } => from,
    }
}
