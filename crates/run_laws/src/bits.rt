//! Numbers of bits as fractions.

ghost use Rattle.std.specs.Prelude.{◌≡◌};
ghost use Rattle.run_laws.specs.Cards.{whole};

use fraction128::Frac;

/// A number of bits.
pub fn whole(bits: u32) -> Frac
    ensures { result ≡ whole bits }
{
    Frac::from_whole(i128::from(bits))
}
