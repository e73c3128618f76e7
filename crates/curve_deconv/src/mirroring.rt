//! Pieces turned over, and mirrored in time.

ghost use Rattle.std.specs.Prelude.{◌≡◌, map, Some, IfOk};
ghost use Rattle.rational.specs.Rational.{neg_ℚ};
ghost use Rattle.rational.specs.Ratio.{SumFits};
ghost use Rattle.upp_curve.specs.affine_segment.Fits.{LineFitsAt};
ghost use Rattle.curve_deconv.specs.Mirrored.{neg_ext, neg_line, neg_option, neg_piece};
ghost use Rattle.curve_deconv.specs.Mirrored.{mirror_line, mirror_option, mirror_piece, mirror_pieces, AreMirrorable};

use fraction128::{Ext, Frac, difference};
use rational::Extended;
use std::alloc::{AllocError, Global};
use upp_curve::affine_segment::{Line, Piece, value};

fn negated_line(line: Line) -> Line
    ensures { result ≡ neg_line line }
{
    Line {
        icept: line.icept.negated(),
        slope: line.slope.negated(),
    }
}

fn negated_value(v: Ext) -> Ext
    ensures { result ≡ neg_ext v }
{
    match v {
        Extended::Inf => Extended::Inf,
        Extended::Fin(x) => Extended::Fin(x.negated()),
    }
}

fn negated_after(line: Option<Line>) -> Option<Line>
    ensures { result ≡ neg_option line }
{
    match line {
        None => None,
        Some(l) => Some(negated_line(l)),
    }
}

fn negated_piece(p: &Piece) -> Piece
    ensures { result ≡ neg_piece p.now }
{
    Piece {
        x: p.x,
        at: negated_value(p.at),
        line: negated_after(p.line),
    }
}

/// The pieces with minus their values; infinity stays.
pub(crate) fn negated_pieces(alloc: Global, pieces: &[Piece]) -> Result<Vec<Piece>, AllocError>
    ensures { IfOk result (λ v. v.items ≡ map neg_piece pieces.now) }
{
    let mut made = Vec::new(alloc);
    for p in pieces {
        made.push(negated_piece(p))?;
    }
    Ok(made)
}

fn mirrored_line(reach: Frac, line: Line) -> Line
    requires { LineFitsAt reach (Some line) }
    ensures { result ≡ mirror_line reach line }
{
    Line {
        icept: value(&line, reach).unwrap(),
        slope: line.slope.negated(),
    }
}

fn mirrored_after(reach: Frac, line: Option<Line>) -> Option<Line>
    requires { LineFitsAt reach line }
    ensures { result ≡ mirror_option reach line }
{
    match line {
        None => None,
        Some(l) => Some(mirrored_line(reach, l)),
    }
}

// What comes to stand where something ends: the value there, and the line before it.
fn mirrored_piece(reach: Frac, until: Frac, at: Ext, line: Option<Line>) -> Piece
    requires time { SumFits reach (neg_ℚ until) }
    requires line { LineFitsAt reach line }
    ensures { result ≡ mirror_piece reach until at line }
{
    Piece {
        x: difference(reach, until),
        at,
        line: mirrored_after(reach, line),
    }
}

/// The pieces mirrored in time: what is at t, before `reach`, comes to stand at `reach` less t, and the value `at` at 0.
/// Infinite after `reach`.
pub(crate) fn mirrored_pieces(
    alloc: Global,
    pieces: &[Piece],
    reach: Frac,
    at: Ext,
) -> Result<Vec<Piece>, AllocError>
    requires { AreMirrorable reach pieces.now }
    ensures { IfOk result (λ v. v.items ≡ mirror_pieces reach at pieces.now) }
{
    let mut made = Vec::new(alloc);
    let mut until = reach;
    let mut ended = at;
    for i in (0..pieces.len()).rev() {
        let p = pieces[i];
        made.push(mirrored_piece(reach, until, ended, p.line))?;
        until = p.x;
        ended = p.at;
    }
    made.push(mirrored_piece(reach, until, ended, None))?;
    Ok(made)
}
