//! How two lines lie on an open stretch.

ghost use Rattle.std.specs.Prelude.{◌≡◌, ◌≢◌, Some, None, IfSome};
ghost use Rattle.upp_curve.specs.declared.affine_segment.line.Line.{Line};
ghost use Rattle.rational.specs.Rational.{ℚ};
ghost use Rattle.curve_call.specs.Lies.{IsLie, LiesBy, MeetsAt, CrossFits};

use crate::short::short_product;
use crate::stretch::Both;
use fraction128::{Frac, difference, is_less, quotient};
use std::cmp::Ordering;
use upp_curve::affine_segment::Line;

/// How two lines lie on an open stretch, up to where they change places, or to its end.
#[derive(Clone, Copy)]
pub(crate) struct Lie {
    /// Whether the first is nowhere above the second at the beginning; else it is nowhere below it.
    pub(crate) below: bool,
    /// Where the two change places; `None` where they do not.
    pub(crate) turn: Option<Frac>,
}

#[inline(always)]
fn throughout(below: bool) -> Lie
    ensures { result ≡ record { below = below; turn = None } }
{
    Lie { below, turn: None }
}

// Which of two lines with one slope is nowhere above the other.
#[inline(always)]
fn parallel_order(a: &Line, b: &Line) -> bool
    requires { a.now.slope ≡ b.now.slope }
    ensures { (from to : ℚ) → LiesBy result (Some a.now) (Some b.now) from to None }
{
    match a.icept.cmp(&b.icept) {
        Ordering::Greater => false,
        _ => true,
    }
}

// Of two lines that meet at x, where the first rises past the second, or falls past it.
fn meeting_lie(rises: bool, x: Frac, from: Frac, to: Frac) -> Lie
    ensures { (l m : Line) → MeetsAt rises l m x → IsLie (Some l) (Some m) from to result }
{
    match x.cmp(&from) {
        Ordering::Greater => match x.cmp(&to) {
            Ordering::Less => Lie {
                below: rises,
                turn: Some(x),
            },
            _ => throughout(rises),
        },
        _ => throughout(!rises),
    }
}

#[inline(always)]
fn is_whole(x: Frac) -> bool {
    x.denominator() == 1
}

// Which of two lines is nowhere above the other from one time to another, where products of short numbers tell that: their
// slopes' difference times both times is then on one side of what they are apart at 0. Of other slopes and times no
// difference of fractions is made.
#[inline(always)]
fn order_between(a: &Line, b: &Line, from: Frac, to: Frac) -> Option<bool>
    requires { CrossFits (Some a.now) (Some b.now) }
    ensures { IfSome result (λ below. LiesBy below (Some a.now) (Some b.now) from to None) }
{
    if !is_whole(a.slope) || !is_whole(b.slope) {
        return None;
    }
    let closing = difference(a.slope, b.slope);
    let first = short_product(closing, from)?;
    let last = short_product(closing, to)?;
    let apart = difference(b.icept, a.icept);
    if !is_less(apart, first) && !is_less(apart, last) {
        return Some(true);
    }
    if !is_less(first, apart) && !is_less(last, apart) {
        return Some(false);
    }
    None
}

// Of lines of two slopes, by the time at which they meet. A call of its own, since few lines need it.
#[inline(never)]
fn lie_by_meeting(a: &Line, b: &Line, from: Frac, to: Frac) -> Lie
    requires differ { a.now.slope ≢ b.now.slope }
    requires fits { CrossFits (Some a.now) (Some b.now) }
    ensures { IsLie (Some a.now) (Some b.now) from to result }
{
    let apart = difference(b.icept, a.icept);
    let closing = difference(a.slope, b.slope);
    let x = quotient(apart, closing);
    meeting_lie(is_less(b.slope, a.slope), x, from, to)
}

#[inline(always)]
fn order_of_lines(a: &Line, b: &Line, from: Frac, to: Frac) -> Option<bool>
    requires { CrossFits (Some a.now) (Some b.now) }
    ensures { IfSome result (λ below. LiesBy below (Some a.now) (Some b.now) from to None) }
{
    if a.slope == b.slope {
        return Some(parallel_order(a, b));
    }
    order_between(a, b, from, to)
}

/// Which of the lines of a stretch is nowhere above the other up to its end, where that is told without the time at which
/// they meet.
#[inline(always)]
pub(crate) fn order_of(b: &Both, to: Frac) -> Option<bool>
    requires { CrossFits b.now.left.line b.now.right.line }
    ensures { IfSome result (λ below. LiesBy below b.now.left.line b.now.right.line b.now.left.x to None) }
{
    match &b.right.line {
        None => Some(true),
        Some(m) => match &b.left.line {
            None => Some(false),
            Some(l) => order_of_lines(l, m, b.left.x, to),
        },
    }
}

fn meeting_of_lines(a: &Line, b: &Line, from: Frac, to: Frac) -> Lie
    requires { CrossFits (Some a.now) (Some b.now) }
    ensures { IsLie (Some a.now) (Some b.now) from to result }
{
    if a.slope == b.slope {
        return throughout(parallel_order(a, b));
    }
    lie_by_meeting(a, b, from, to)
}

/// How the lines of a stretch lie, up to its end, by the time at which they meet.
pub(crate) fn meeting_of(b: &Both, to: Frac) -> Lie
    requires { CrossFits b.now.left.line b.now.right.line }
    ensures { IsLie b.now.left.line b.now.right.line b.now.left.x to result }
{
    match &b.right.line {
        None => throughout(true),
        Some(m) => match &b.left.line {
            None => throughout(false),
            Some(l) => meeting_of_lines(l, m, b.left.x, to),
        },
    }
}

/// How the lines of a stretch lie, up to its end.
#[inline(always)]
pub(crate) fn lie_of(b: &Both, to: Frac) -> Lie
    requires { CrossFits b.now.left.line b.now.right.line }
    ensures { IsLie b.now.left.line b.now.right.line b.now.left.x to result }
{
    match order_of(b, to) {
        Some(below) => throughout(below),
        None => meeting_of(b, to),
    }
}
