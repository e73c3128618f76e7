//! The pieces of a curve as it is given, laid out so that only neighbours have to be compared after.

ghost use Rattle.std.specs.Prelude.{◌≡◌, ◌++◌, ◌∷◌, pos, IfOk, List, length};
ghost use Rattle.rational.specs.Rational.{int, ◌≤ℚ◌, ◌<ℚ◌};
ghost use Rattle.upp_curve.specs.affine_segment.Pieces.{StartsAtZero, Each};
ghost use Rattle.upp_curve.specs.Unrolled.{upto};
ghost use Rattle.upp_curve.specs.Fitting.{LaterFits};
ghost use Rattle.upp_curve.specs.affine_segment.Fits.{ReadFits};
ghost use Rattle.upp_normal.specs.Normalising.{cut_at, second_copy, ended, past, first_start};

use fraction128::Frac;
use std::alloc::{AllocError, Global};
use std::cmp::Ordering;
use upp_curve::affine_segment::{Piece, piece_at, piece_value, read};
use upp_curve::fitting::later;

// The piece that starts at t where the one that is read there is cut.
fn cut_at(pieces: &[Piece], t: Frac) -> Piece
    requires starts { StartsAtZero pieces.now }
    requires time { int (pos 0) ≤ℚ t }
    requires fits { ReadFits pieces.now t }
    ensures { (p : Piece) (ps : List Piece) → pieces.now ≡ p ∷ ps → result ≡ cut_at p ps t }
{
    let p = piece_at(pieces, t);
    let at = piece_value(&p, t);
    Piece {
        x: t,
        at,
        line: p.line,
    }
}

/// The pieces, with room for so many more.
pub(crate) fn with_room(
    alloc: Global,
    pieces: &[Piece],
    more: usize,
) -> Result<Vec<Piece>, AllocError>
    ensures items { IfOk result (λ v. v.items ≡ pieces.now) }
{
    let mut kept = Vec::with_capacity(alloc, pieces.len().saturating_add(more))?;
    kept.extend_from_slice(pieces)?;
    Ok(kept)
}

/// The pieces of a periodic curve below rank + 2 period: those given, and a second copy of what is read from the rank
/// on.
pub(crate) fn two_periods(
    given: Vec<Piece>,
    rank: Frac,
    period: Frac,
    rise: Frac,
) -> Result<Vec<Piece>, AllocError>
    requires starts { StartsAtZero given.items }
    requires rank { int (pos 0) ≤ℚ rank }
    requires read { ReadFits given.items rank }
    requires cut { (p : Piece) (ps : List Piece) → given.items ≡ p ∷ ps → LaterFits period rise (cut_at p ps rank) }
    requires copies { Each (λ p. rank <ℚ p.x → LaterFits period rise p) given.items }
    ensures { (p : Piece) (ps : List Piece) → given.items ≡ p ∷ ps
        → IfOk result (λ v. v.items ≡ p ∷ (ps ++ second_copy p ps rank period rise)) }
{
    let mut pieces = given;
    let end = pieces.len();
    let before = count_before(&pieces, rank);
    let cut = cut_at(&pieces, rank);
    pieces.reserve_exact(end.saturating_sub(before).saturating_add(1))?;
    pieces.push(later(period, rise, &cut))?;
    for i in before..end {
        let p = pieces[i];
        match p.x.cmp(&rank) {
            Ordering::Greater => pieces.push(later(period, rise, &p))?,
            _ => {}
        }
    }
    Ok(pieces)
}

/// The pieces of a curve that is infinite past its rank, with no line at the rank.
pub(crate) fn ended(pieces: Vec<Piece>, rank: Frac) -> Result<Vec<Piece>, AllocError>
    requires starts { StartsAtZero pieces.items }
    requires rank { int (pos 0) ≤ℚ rank }
    requires read { ReadFits pieces.items rank }
    ensures { IfOk result (λ v. v.items ≡ ended pieces.items rank) }
{
    let mut kept = pieces;
    let at = read(&kept, rank);
    let before = count_before(&kept, rank);
    kept.truncate(before);
    kept.push(Piece {
        x: rank,
        at,
        line: None,
    })?;
    Ok(kept)
}

/// The first start past t.
pub(crate) fn first_past(pieces: &[Piece], t: Frac) -> Option<Frac>
    ensures { result ≡ first_start (past t pieces.now) }
{
    for p in pieces {
        match p.x.cmp(&t) {
            Ordering::Greater => return Some(p.x),
            _ => {}
        }
    }
    None
}

/// How many of the pieces start before t, of pieces whose starts rise.
pub fn count_before(pieces: &[Piece], t: Frac) -> usize
    ensures { result ≡ length (upto t pieces.now) }
{
    for (i, p) in pieces.iter().enumerate() {
        match p.x.cmp(&t) {
            Ordering::Less => {}
            _ => return i,
        }
    }
    pieces.len()
}
