//! How pieces that are made go on from a time.

ghost use Rattle.std.specs.Prelude.{◌≡◌, pos, None};
ghost use Rattle.rational.specs.Rational.{ℚ, int, ◌≤ℚ◌};
ghost use Rattle.upp_curve.specs.affine_segment.Reading.{read, line_in, next_in};
ghost use Rattle.upp_curve.specs.affine_segment.Pieces.{StartsAtZero};
ghost use Rattle.upp_curve.specs.affine_segment.Fits.{ReadFits};
ghost use Rattle.upp_limits.specs.Limits.{Sizes};
ghost use Rattle.upp_normal.specs.Ahead.{GoesOn};
ghost use Rattle.element_envelope.specs.SumWindows.{SumWindow};
ghost use Rattle.curve_conv.specs.Stretches.{SumStretch, SumTimeIn};

use fraction128::Frac;
use upp_curve::affine_segment::Piece;
use upp_normal::{Stretch, plain_stretch};

/// How pieces that two curves made go on from t, by binary search.
pub(crate) fn piece_stretch(pieces: &[Piece], t: Frac) -> Stretch
    requires { (z : Sizes) × (end : ℚ) × SumTimeIn z end t × SumWindow z end pieces.now }
    ensures goes { GoesOn (read pieces.now) t result }
    ensures sizes { (z : Sizes) (end : ℚ) → SumTimeIn z end t → SumWindow z end pieces.now → SumStretch z t result }
{
    plain_stretch(pieces, t)
}
