//! Calls whose answer is known by what is infinite or by the rates, so that they look at no piece.

ghost use Rattle.std.specs.Prelude.{◌≡◌, ◌↔◌, ◌⊎◌, pos, IsTrue};
ghost use Rattle.rational.specs.Extended.{◌<ₑ◌};
ghost use Rattle.upp_curve.specs.Steady.{rate, last_line};
ghost use Rattle.upp_limits.specs.Levels.{icept_of, level_of, IsLevelAbove};
ghost use Rattle.upp_curve.specs.Curve.{value_at};
ghost use Rattle.upp_curve.specs.Curves.{IsCurve};
ghost use Rattle.min_plus.specs.Functions.{IsFinite};
ghost use Rattle.rational.specs.Rational.{int};
ghost use Rattle.upp_limits.specs.Gauges.{EndsAbove, IsKnownAtOnce};

use crate::op_kind::OpKind;
use fraction128::{Ext, Frac, is_less};
use rational::Extended;
use upp_curve::affine_segment::Piece;
use upp_curve::{Curve, Tail};

/// The long-run rate.
fn rate_of(c: &Curve) -> Ext
    ensures { result ≡ rate c.now }
{
    c.rate().unwrap()
}

/// Whether a is less than b.
fn ext_less(a: Ext, b: Ext) -> bool
    ensures { IsTrue result ↔ (a <ₑ b) }
{
    match a {
        Extended::Inf => false,
        Extended::Fin(x) => match b {
            Extended::Inf => true,
            Extended::Fin(y) => is_less(x, y),
        },
    }
}

/// Whether f is the faster one.
fn is_faster(f: &Curve, g: &Curve) -> bool
    ensures { IsTrue result ↔ (rate g.now <ₑ rate f.now) }
{
    ext_less(rate_of(g), rate_of(f))
}

/// The value at 0 of the last line.
fn last_icept(pieces: &[Piece]) -> Option<Frac>
    ensures { result ≡ icept_of (last_line pieces.now) }
{
    match pieces.last() {
        None => None,
        Some(piece) => match piece.line {
            None => None,
            Some(line) => Some(line.icept),
        },
    }
}

/// The value at 0 of the line of an affine tail.
fn level_of(c: &Curve) -> Option<Frac>
    ensures level { result ≡ level_of c.now }
    ensures kept { IsCurve c.now }
{
    match c.tail() {
        Tail::Affine { .. } => last_icept(c.pieces()),
        _ => None,
    }
}

/// Whether the rate is 0.
pub fn is_level(c: &Curve) -> bool
    ensures { IsTrue result ↔ (rate c.now ≡ Extended.Fin (int (pos 0))) }
{
    match rate_of(c) {
        Extended::Fin(rate) => rate == Frac::zero(),
        Extended::Inf => false,
    }
}

/// Whether the level of f, where it has one, is above that of g.
pub fn is_level_above(f: &Curve, g: &Curve) -> bool
    ensures above { IsTrue result ↔ IsLevelAbove (level_of f.now) (level_of g.now) }
    ensures kept { IsCurve f.now × IsCurve g.now }
{
    let level = level_of(f);
    let other = level_of(g);
    match level {
        None => false,
        Some(x) => match other {
            None => false,
            Some(y) => is_less(y, x),
        },
    }
}

/// Whether both rise with rate 0 and f ends above g.
fn ends_above(f: &Curve, g: &Curve) -> bool
    ensures { IsTrue result ↔ EndsAbove f.now g.now }
{
    if !f.is_rising() {
        return false;
    }
    if !g.is_rising() {
        return false;
    }
    if !is_level(f) {
        return false;
    }
    if !is_level(g) {
        return false;
    }
    is_level_above(f, g)
}

/// Whether f is infinite somewhere or the faster one.
fn is_past(f: &Curve, g: &Curve) -> bool
    ensures { IsTrue result ↔ (¬ (IsFinite (value_at f.now)) ⊎ (rate g.now <ₑ rate f.now)) }
{
    if f.is_finite() { is_faster(f, g) } else { true }
}

/// Whether f is infinite somewhere, or the faster one, or ends above g.
fn is_past_or_above(f: &Curve, g: &Curve) -> bool
    ensures { IsTrue result ↔ (¬ (IsFinite (value_at f.now)) ⊎ ((rate g.now <ₑ rate f.now) ⊎ EndsAbove f.now g.now)) }
{
    if is_past(f, g) {
        true
    } else {
        ends_above(f, g)
    }
}

/// Whether a call's answer is known by what is infinite or by the rates.
pub(crate) fn is_known_at_once(op: &OpKind, f: &Curve, g: &Curve) -> bool
    ensures { IsTrue result ↔ IsKnownAtOnce op.now f.now g.now }
{
    match op {
        OpKind::Shift(Extended::Inf) => true,
        OpKind::FifoLeft(Extended::Inf) => true,
        OpKind::Deconvolve => is_faster(f, g),
        OpKind::Horizontal => is_past_or_above(f, g),
        OpKind::Vertical => is_past(f, g),
        _ => false,
    }
}
