//! The lower of two lines on an open interval.

ghost use Rattle.std.specs.Prelude.{◌≡◌, ◌≢◌, ◌↔◌, IfOk, IfErr, IsOk, IsTrue};
ghost use Rattle.rational.specs.Rational.{◌≤ℚ◌};
ghost use Rattle.rational.specs.Extended.{◌<ₑ◌};
ghost use Rattle.upp_curve.specs.affine_segment.Values.{line_at};
ghost use Rattle.upp_curve.specs.affine_segment.Steps.{IsWideCross};
ghost use Rattle.upp_curve.specs.affine_segment.Cuts.{IsLowerCut, IsLowerThroughout};

use crate::affine_segment::line::{Line, cross};
use fraction128::{Ext, Frac, Wide};
use rational::Extended;
use std::cmp::Ordering;

/// The lower of two lines on an open interval: one of them up to a time, and the other after it.
#[derive(Debug, Clone, Copy)]
pub struct Cut {
    /// The lower line at the beginning.
    pub low: Line,
    /// Where the other becomes the lower; `None` where none does.
    pub at: Option<Frac>,
    /// The lower line at the end.
    pub after: Line,
}

/// The lower of two lines strictly between `from` and `to`. A change is marked only where lines of different slopes
/// meet. Refused only where a step of `cross` is, and so never for lines of one slope.
pub fn element_min(a: &Line, b: &Line, from: Frac, to: Ext) -> Result<Cut, Wide>
    requires { Extended.Fin from <ₑ to }
    ensures lower { IfOk result (IsLowerCut a.now b.now from to) }
    ensures parallel { a.now.slope ≡ b.now.slope → IsOk result }
    ensures wide { IfErr result (IsWideCross a.now b.now) }
{
    match cross(a, b)? {
        None => Ok(lower_parallel(*a, *b)),
        Some(x) => match a.slope.cmp(&b.slope) {
            Ordering::Less => Ok(lower_crossing(*b, *a, x, from, to)),
            _ => Ok(lower_crossing(*a, *b, x, from, to)),
        },
    }
}

// One line throughout.
fn uncut(line: Line) -> Cut
    ensures { result ≡ record { low = line; at = None; after = line } }
{
    let after = line;
    Cut {
        low: line,
        at: None,
        after,
    }
}

// The lower of two lines with one slope.
fn lower_parallel(a: Line, b: Line) -> Cut
    requires { a.slope ≡ b.slope }
    ensures { IsLowerThroughout a b result }
{
    match a.icept.cmp(&b.icept) {
        Ordering::Greater => uncut(b),
        _ => uncut(a),
    }
}

/// Whether a time is before an end, which may be infinite.
pub fn is_before(x: Frac, end: &Ext) -> bool
    ensures { IsTrue result ↔ (Extended.Fin x <ₑ end.now) }
{
    match *end {
        Extended::Inf => true,
        Extended::Fin(e) => match x.cmp(&e) {
            Ordering::Less => true,
            _ => false,
        },
    }
}

// The lower of two lines that meet at x: the steeper before, and the other after.
fn lower_crossing(steep: Line, shallow: Line, x: Frac, from: Frac, to: Ext) -> Cut
    requires steep { shallow.slope ≤ℚ steep.slope }
    requires apart { steep.slope ≢ shallow.slope }
    requires meet { line_at steep x ≡ line_at shallow x }
    ensures { IsLowerCut steep shallow from to result }
{
    match from.cmp(&x) {
        Ordering::Less => {
            if is_before(x, &to) {
                Cut {
                    low: steep,
                    at: Some(x),
                    after: shallow,
                }
            } else {
                uncut(steep)
            }
        }
        _ => uncut(shallow),
    }
}
