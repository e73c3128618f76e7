//! Neighbours that are one piece, joined.

ghost use Rattle.std.specs.Prelude.{◌≡◌, ◌↔◌, IsTrue, List, ◌∷◌};
ghost use Rattle.upp_curve.specs.Normal.{Continues};
ghost use Rattle.upp_curve.specs.affine_segment.Pieces.{Each, StartsAtZero};
ghost use Rattle.upp_curve.specs.affine_segment.Fits.{LineFitsAt};
ghost use Rattle.upp_normal.specs.Normalising.{IsMerged};

use upp_curve::affine_segment::{Piece, line_value};
use upp_curve::same::{same_ext, same_lines};

// Whether q goes on with p's line, so that the two are one piece.
#[inline(always)]
fn continues(p: &Piece, q: &Piece) -> bool
    requires { LineFitsAt q.now.x q.now.line }
    ensures { IsTrue result ↔ Continues p.now q.now }
{
    same_lines(q.line, p.line) && same_ext(q.at, line_value(q.line, q.x))
}

/// The pieces with neighbours joined that are one piece: these read as before, and no piece goes on with the one before
/// it.
pub fn merged(pieces: Vec<Piece>) -> Vec<Piece>
    requires starts { StartsAtZero pieces.items }
    requires fits { Each (λ q. LineFitsAt q.x q.line) pieces.items }
    ensures { (p : Piece) (ps : List Piece) → pieces.items ≡ p ∷ ps
        → (kept : List Piece) × (result.items ≡ p ∷ kept) × IsMerged p ps kept }
{
    let mut kept = pieces;
    let mut last = 0;
    for next in 1..kept.len() {
        let q = kept[next];
        if !continues(&kept[last], &q) {
            last += 1;
            kept[last] = q;
        }
    }
    kept.truncate(last + 1);
    kept
}
