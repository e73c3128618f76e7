//! A finite value.

ghost use Rattle.std.specs.Prelude.{◌≡◌};
ghost use Rattle.rational.specs.declared.Extended.TheVariants.{Fin};
ghost use Rattle.upp_curve.specs.Shapes.{IsNumber};

use fraction128::{Ext, Frac};
use rational::Extended;

/// A finite value.
pub(crate) fn number_of(v: Ext) -> Frac
    requires { IsNumber v }
    ensures { v ≡ Fin result }
{
    match v {
        Extended::Fin(x) => x,
        Extended::Inf => Frac::zero(),
    }
}
