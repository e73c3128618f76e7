//! A curve, or a level for ever, looked at in the same way.

ghost use Rattle.std.specs.Prelude.{ℕ, ◌≡◌, pos};
ghost use Rattle.rational.specs.Rational.{ℚ};
ghost use Rattle.rational.specs.Grid.{Whole};
ghost use Rattle.upp_curve.specs.Curve.{value_at};
ghost use Rattle.upp_limits.specs.Limits.{Sizes};
ghost use Rattle.upp_limits.specs.Periods.{period_of, period_or};
ghost use Rattle.upp_normal.specs.Operand.{OperandLineAt};
ghost use Rattle.upp_normal.specs.Ahead.{GoesOn, AtNext, TimesStand, HasWindow, IsTimeIn, GridValue};
ghost use Rattle.upp_curve.specs.Steady.{rate};
ghost use Rattle.curve_call.specs.Levels.{level_curve};

use fraction128::{Ext, Frac};
use rational::Extended;
use std::marker::Model;
use upp_curve::affine_segment::Line;
use upp_curve::{Curve, Tail};
use upp_normal::{Stretch, stretch_at};

// What is looked at.
#[derive(Clone, Copy)]
enum Shown<'a> {
    Curve(&'a Curve),
    Level(Frac),
}

/// A curve, or a level for ever: contracts see a curve. No memory is taken for a level.
#[derive(Drop)]
pub struct Side<'a> {
    shown: Shown<'a>,
}

/// The period of a curve, and d where it has every period.
pub fn period_or(c: &Curve, d: Frac) -> Frac
    ensures { result ≡ period_or d (period_of c.now.tail) }
{
    match c.tail() {
        Tail::Periodic { period, .. } => *period,
        Tail::Affine { .. } => d,
        Tail::Infinite { .. } => d,
    }
}

impl<'a> Model for Side<'a> {
    ghost use Rattle.upp_curve.specs.Curve.{SpecCurve};
    ghost use Rattle.curve_call.specs.Sides.{shown_curve};

    ghost Value = { SpecCurve };

    ghost view = { λ a. shown_curve a.shown };
}

impl<'a> Side<'a> {
    /// A curve.
    pub fn of(c: &'a Curve) -> Side<'a>
        ensures { result ≡ c.now }
    {
        Side {
            shown: Shown::Curve(c),
        }
    }

    /// One value at every time.
    pub fn level(l: Frac) -> Side<'a>
        ensures { result ≡ level_curve l }
    {
        Side {
            shown: Shown::Level(l),
        }
    }

    /// How it goes on from t, as `stretch_at` of a curve.
    pub(crate) fn stretch(&self, t: Frac) -> Stretch
        requires { (z : Sizes) × (end : ℚ) × HasWindow z end self.now × IsTimeIn z end t }
        ensures goes { GoesOn (value_at self.now) t result }
        ensures times { (d : ℕ) → TimesStand d self.now → AtNext (Whole d) result.next }
        ensures sizes { (z : Sizes) (end : ℚ) → HasWindow z end self.now → IsTimeIn z end t
            → OperandLineAt z result.line × GridValue z result.at }
    {
        match self.shown {
            Shown::Curve(c) => stretch_at(c, t),
            Shown::Level(l) => Stretch {
                at: Extended::Fin(l),
                line: Some(Line {
                    icept: l,
                    slope: Frac::zero(),
                }),
                next: None,
            },
        }
    }

    /// The long-run rate.
    pub(crate) fn rate(&self) -> Ext
        ensures { result ≡ rate self.now }
    {
        match self.shown {
            Shown::Level(_) => Extended::Fin(Frac::zero()),
            Shown::Curve(c) => c.rate().unwrap(),
        }
    }

    /// Its own period, and d where it has every period.
    pub(crate) fn own_period(&self, d: Frac) -> Frac
        ensures { result ≡ period_or d (period_of self.now.tail) }
    {
        match self.shown {
            Shown::Level(_) => d,
            Shown::Curve(c) => period_or(c, d),
        }
    }
}
