//! The pieces and the tail that a listed curve's text stands for.

ghost use Rattle.std.specs.Prelude.{◌≡◌, IfSome, IsSome};
ghost use Rattle.curve_library.specs.Listed.{text_line, text_piece, text_pieces, text_tail, last_start, TextFits};

use crate::formed;
use crate::texts::{PieceText, TailText};
use fraction128::Frac;
use rational::Extended;
use std::alloc::Global;
use upp_curve::Tail;
use upp_curve::affine_segment::{Line, Piece};

// The line of a piece; None where a step to it does not fit.
fn line_of(p: &PieceText) -> Option<Line>
    ensures value { IfSome result (λ l. l ≡ text_line p.now) }
    ensures fits { TextFits p.now → IsSome result }
{
    let Ok(run) = Frac::mul(p.slope, p.x) else {
        return None;
    };
    match Frac::sub(p.after, run) {
        Ok(icept) => Some(Line {
            icept,
            slope: p.slope,
        }),
        Err(_) => None,
    }
}

/// The piece of a text; None where a step to its line does not fit.
pub(crate) fn piece_of(p: &PieceText) -> Option<Piece>
    ensures value { IfSome result (λ q. q ≡ text_piece p.now) }
    ensures fits { TextFits p.now → IsSome result }
{
    match line_of(p) {
        Some(line) => Some(formed::piece(p.x, p.at, line.icept, line.slope)),
        None => None,
    }
}

/// All pieces; None where a step to a line does not fit, or where there is no memory.
pub(crate) fn pieces_of(alloc: Global, texts: &[PieceText]) -> Option<Vec<Piece>>
    ensures { IfSome result (λ v. v.items ≡ text_pieces texts.now) }
{
    let mut pieces = Vec::new(alloc);
    for p in texts {
        let Some(line) = line_of(p) else {
            return None;
        };
        let piece = Piece {
            x: p.x,
            at: Extended::Fin(p.at),
            line: Some(line),
        };
        if let Err(_) = pieces.push(piece) {
            return None;
        }
    }
    Some(pieces)
}

/// The tail: without one the last piece goes on for ever.
pub(crate) fn tail_of(texts: &[PieceText], tail: &Option<TailText>) -> Tail
    ensures { result ≡ text_tail texts.now tail.now }
{
    match tail {
        Some(t) => Tail::Periodic {
            rank: t.rank,
            period: t.period,
            rise: t.rise,
        },
        None => Tail::Affine {
            rank: last_start_of(texts),
        },
    }
}

/// The last start, and 0 where there is none.
pub(crate) fn last_start_of(texts: &[PieceText]) -> Frac
    ensures { result ≡ last_start texts.now }
{
    match texts.last() {
        Some(p) => p.x,
        None => Frac::zero(),
    }
}
