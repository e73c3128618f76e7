//! Pieces of a window: what is read of them at a time, and the value at the start of the first.

ghost use Rattle.std.specs.Prelude.{◌≡◌, pos, List, ◌∷◌, IsTrue, ◌↔◌};
ghost use Rattle.rational.specs.Rational.{ℚ, int, ◌+ℚ◌, ◌≤ℚ◌, ◌<ℚ◌, neg_ℚ, le_q};
ghost use Rattle.upp_curve.specs.affine_segment.Values.{line_value};
ghost use Rattle.upp_curve.specs.affine_segment.Fits.{ReadFits, LineFitsAt};
ghost use Rattle.upp_curve.specs.affine_segment.Pieces.{StartsAtZero};
ghost use Rattle.upp_curve.specs.Readable.{SumFitsAt};
ghost use Rattle.upp_curve.specs.affine_segment.Reading.{piece_in, piece_value, read};
ghost use Rattle.subadd_closure.specs.Starting.{first_at};

use fraction128::{Ext, Frac, difference};
use rational::Extended;
use upp_curve::affine_segment::{Piece, read};

/// Whether the value a period after 0 is `start`, risen by `rise`.
pub(crate) fn repeats_start(pieces: &[Piece], period: Frac, rise: Frac, start: Frac) -> bool
    requires starts { StartsAtZero pieces.now }
    requires time { int (pos 0) ≤ℚ period }
    requires fits { ReadFits pieces.now period }
    requires less { SumFitsAt (read pieces.now period) (neg_ℚ rise) }
    ensures { IsTrue result ↔ (read pieces.now period ≡ Extended.Fin (start +ℚ rise)) }
{
    match read(pieces, period) {
        Extended::Inf => false,
        Extended::Fin(v) => difference(v, rise) == start,
    }
}

/// The pieces with the value v at the start of the first.
pub(crate) fn with_first(pieces: Vec<Piece>, v: Ext) -> Vec<Piece>
    ensures { result.items ≡ first_at v pieces.items }
{
    let mut all = pieces;
    if let Some(first) = all.first_mut() {
        first.at = v;
    }
    all
}
