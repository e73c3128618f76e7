//! What is left on each stretch.

ghost use Rattle.std.specs.Prelude.{◌≡◌, IfOk};
ghost use Rattle.curve_call.specs.Stretches.{EachBoth};
ghost use Rattle.curve_call.specs.Pointwise.{mapped};
ghost use Rattle.plain_operators.specs.running.Parts.{left_piece, StretchLeftFits};

use curve_call::{Both, excess_value, lines_apart};
use std::alloc::{AllocError, Global};
use upp_curve::affine_segment::Piece;

fn left_piece(b: &Both) -> Piece
    requires { StretchLeftFits b.now }
    ensures { result ≡ left_piece b.now }
{
    Piece {
        x: b.left.x,
        at: excess_value(b.left.at, b.right.at),
        line: lines_apart(b.left.line, b.right.line),
    }
}

/// What is left on each of some stretches.
pub(crate) fn left_pieces(alloc: Global, stretches: &[Both]) -> Result<Vec<Piece>, AllocError>
    requires { EachBoth StretchLeftFits stretches.now }
    ensures { IfOk result (λ v. v.items ≡ mapped left_piece stretches.now) }
{
    let mut pieces = Vec::new(alloc);
    for b in stretches {
        pieces.push(left_piece(b))?;
    }
    Ok(pieces)
}
