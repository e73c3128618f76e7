//! By how much a curve is at most above itself some time earlier or later, over the times of a window. No memory is taken.

ghost use Rattle.std.specs.Prelude.{IfSome};
ghost use Rattle.rational.specs.Rational.{◌+ℚ◌, ◌≤ℚ◌, ◌<ℚ◌};
ghost use Rattle.rational.specs.Extended.{◌≤ₑ◌, ◌+ₑ◌};
ghost use Rattle.rational.specs.declared.Extended.TheVariants.{Fin};
ghost use Rattle.upp_curve.specs.Curve.{value_at};
ghost use Rattle.upp_curve.specs.affine_segment.Values.{line_value};
ghost use Rattle.curve_conv.specs.Rises.{RisesAtMost, HasLater, IsLookedUntil, IsNextTime};

use curve_call::{checked_difference, checked_sum, earlier, line_there};
use fraction128::{Ext, Frac, greater, is_less};
use rational::Extended;
use upp_curve::Curve;
use upp_curve::affine_segment::Line;
use upp_normal::stretch_at;

/// How far a curve was looked at.
#[derive(Clone, Copy)]
pub(crate) struct Looked {
    /// The time before which it was.
    pub(crate) until: Frac,
    /// So much later or earlier, it is nowhere in the window before more than so much above itself.
    pub(crate) most: Frac,
}

// The larger of a number and what x is above y; none where that does not fit.
fn number_above(x: Frac, y: Frac, most: Frac) -> Option<Frac>
    ensures { IfSome result (λ r. (most ≤ℚ r) × (x ≤ℚ y +ℚ r)) }
{
    let gap = checked_difference(x, y)?;
    Some(greater(most, gap))
}

// The same of two values; none where b is infinite and a is not.
fn above(b: Ext, a: Ext, most: Frac) -> Option<Frac>
    ensures { IfSome result (λ r. (most ≤ℚ r) × (b ≤ₑ a +ₑ Fin r)) }
{
    match a {
        Extended::Inf => Some(most),
        Extended::Fin(y) => match b {
            Extended::Inf => None,
            Extended::Fin(x) => number_above(x, y, most),
        },
    }
}

// As `above` of two lines, the one a period later.
fn line_above(
    there: &Option<Line>,
    here: &Option<Line>,
    period: Frac,
    t: Frac,
    most: Frac,
) -> Option<Frac>
    ensures { IfSome result (λ r. (most ≤ℚ r)
        × (line_value there.now (t +ℚ period) ≤ₑ line_value here.now t +ₑ Fin r)) }
{
    let later = checked_sum(t, period)?;
    let b = line_there(there, later)?;
    let a = line_there(here, t)?;
    above(b, a, most)
}

// Until when neither a curve from a time on nor the same a period later goes on otherwise, up to `first`.
fn next_time(here: &Option<Frac>, there: &Option<Frac>, period: Frac, first: Frac) -> Option<Frac>
    ensures { IfSome result (IsNextTime here.now there.now period first) }
{
    let soon = earlier(first, here);
    match there {
        None => Some(soon),
        Some(e) => {
            let back = checked_difference(*e, period)?;
            Some(earlier(soon, &Some(back)))
        }
    }
}

// One step on.
fn step(c: &Curve, looked: Looked, begin: Frac, first: Frac, period: Frac) -> Option<Looked>
    requires later { HasLater c.now begin first period }
    requires looked { IsLookedUntil c.now begin first period looked }
    requires before { looked.until <ℚ first }
    ensures { IfSome result (IsLookedUntil c.now begin first period) }
{
    let later = checked_sum(looked.until, period)?;
    let here = stretch_at(c, looked.until);
    let there = stretch_at(c, later);
    let until = next_time(&here.next, &there.next, period, first)?;
    let start = above(there.at, here.at, looked.most)?;
    let after = line_above(&there.line, &here.line, period, looked.until, start)?;
    let most = line_above(&there.line, &here.line, period, until, after)?;
    Some(Looked { until, most })
}

/// A number that a curve is nowhere from `begin` on before `first` more than below itself a time `period` later, or
/// earlier where that is negative: the least that is `least` or more. None where it is infinite then and a number there,
/// where there are more than `pieces` pieces on the way, or where a number on the way does not fit.
pub(crate) fn rise_between(
    c: &Curve,
    begin: Frac,
    first: Frac,
    period: Frac,
    least: Frac,
    pieces: u32,
) -> Option<Frac>
    requires { HasLater c.now begin first period }
    ensures { IfSome result (RisesAtMost (value_at c.now) period begin first) }
{
    let mut looked = Looked {
        until: begin,
        most: least,
    };
    for _piece in 0..pieces {
        if !is_less(looked.until, first) {
            return Some(looked.most);
        }
        looked = step(c, looked, begin, first, period)?;
    }
    None
}
