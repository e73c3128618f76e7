//! The lower of two functions, as it goes on from a time.

ghost use Rattle.std.specs.Prelude.{◌≡◌, ◌↔◌, ◌≢◌, IsTrue, Some};
ghost use Rattle.rational.specs.Rational.{ℚ, ◌<ℚ◌};
ghost use Rattle.rational.specs.MinMax.{min_q};
ghost use Rattle.rational.specs.Extended.{Ext, min_ext};
ghost use Rattle.upp_curve.specs.affine_segment.Values.{line_at};
ghost use Rattle.upp_limits.specs.Limits.{Sizes};
ghost use Rattle.upp_normal.specs.Ahead.{GoesOn, IsBeforeNext};
ghost use Rattle.curve_call.specs.Lies.{CrossFits};
ghost use Rattle.curve_conv.specs.Stretches.{SumStretch, SumTimeIn, IsUnder, IsEarliest};

use fraction128::{Ext, Frac, is_less, lesser_value};
use rational::Extended;
use upp_curve::affine_segment::{Line, cross};
use upp_normal::Stretch;

/// The lower of two lines just after a time.
#[derive(Clone, Copy)]
pub(crate) struct Under {
    /// The line; none is infinity.
    pub(crate) line: Option<Line>,
    /// Until when it is the lower; none is for ever.
    pub(crate) turn: Option<Frac>,
}

/// The earlier of two times that may be missing.
pub(crate) fn earliest(a: Option<Frac>, b: Option<Frac>) -> Option<Frac>
    ensures { IsEarliest a b result }
{
    match a {
        None => b,
        Some(x) => match b {
            None => a,
            Some(y) => { if is_less(y, x) { b } else { a } }
        },
    }
}

// Of two lines that meet at x, the first steeper.
fn meeting(steep: &Line, shallow: &Line, x: Frac, t: Frac) -> Under
    requires steep { shallow.now.slope <ℚ steep.now.slope }
    requires meet { line_at steep.now x ≡ line_at shallow.now x }
    ensures { IsUnder (Some steep.now) (Some shallow.now) t result }
{
    if is_less(t, x) {
        return Under {
            line: Some(*steep),
            turn: Some(x),
        };
    }
    Under {
        line: Some(*shallow),
        turn: None,
    }
}

// Of two lines of one slope.
fn parallel(l: &Line, m: &Line, t: Frac) -> Under
    requires { l.now.slope ≡ m.now.slope }
    ensures { IsUnder (Some l.now) (Some m.now) t result }
{
    if is_less(m.icept, l.icept) {
        return Under {
            line: Some(*m),
            turn: None,
        };
    }
    Under {
        line: Some(*l),
        turn: None,
    }
}

// Of two lines that meet at x.
fn crossing(l: &Line, m: &Line, x: Frac, t: Frac) -> Under
    requires apart { l.now.slope ≢ m.now.slope }
    requires meet { line_at l.now x ≡ line_at m.now x }
    ensures { IsUnder (Some l.now) (Some m.now) t result }
{
    if is_less(l.slope, m.slope) {
        return meeting(m, l, x, t);
    }
    meeting(l, m, x, t)
}

fn lower_line(l: &Line, m: &Line, t: Frac) -> Under
    requires { CrossFits (Some l.now) (Some m.now) }
    ensures { IsUnder (Some l.now) (Some m.now) t result }
{
    match cross(l, m) {
        Ok(None) => parallel(l, m, t),
        Ok(Some(x)) => crossing(l, m, x, t),
        Err(_) => unreachable!(),
    }
}

// Of two lines that may be missing.
fn either_under(l: &Option<Line>, m: &Option<Line>, t: Frac) -> Under
    requires { CrossFits l.now m.now }
    ensures { IsUnder l.now m.now t result }
{
    match l {
        None => Under {
            line: *m,
            turn: None,
        },
        Some(a) => match m {
            None => Under {
                line: *l,
                turn: None,
            },
            Some(b) => lower_line(a, b, t),
        },
    }
}

/// How the lower of two functions goes on from t, of which each is known.
pub(crate) fn lower(s: &Stretch, r: &Stretch, t: Frac) -> Stretch
    requires { (z : Sizes) × (end : ℚ) × SumTimeIn z end t × SumStretch z t s.now × SumStretch z t r.now }
    ensures goes { (f g : ℚ → Ext) → GoesOn f t s.now → GoesOn g t r.now → GoesOn (λ u. min_ext (f u) (g u)) t result }
    ensures next { (u : ℚ) → IsBeforeNext u result.next → IsBeforeNext u s.now.next × IsBeforeNext u r.now.next }
    ensures sizes { (z : Sizes) (end : ℚ) → SumTimeIn z end t → SumStretch z t s.now → SumStretch z t r.now
        → SumStretch z t result }
{
    let line = either_under(&s.line, &r.line, t);
    let next = earliest(s.next, r.next);
    Stretch {
        at: lesser_value(s.at, r.at),
        line: line.line,
        next: earliest(next, line.turn),
    }
}
