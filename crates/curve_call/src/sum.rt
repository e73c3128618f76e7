//! The sum of two windows.

ghost use Rattle.std.specs.Prelude.{◌≡◌, ◌+◌, ◌≤◌, pos, length, IfOk};
ghost use Rattle.rational.specs.Rational.{ℚ, int, ◌≤ℚ◌, ◌+ℚ◌};
ghost use Rattle.rational.specs.Ratio.{SumFits};
ghost use Rattle.rational.specs.Extended.{◌+ₑ◌};
ghost use Rattle.upp_curve.specs.affine_segment.Reading.{read};
ghost use Rattle.upp_curve.specs.affine_segment.Pieces.{StartsAtZero};
ghost use Rattle.curve_call.specs.Stretches.{CutsFit};
ghost use Rattle.curve_call.specs.Pointwise.{sum_line, sum_piece, ValueSumFits, LineSumFits, StretchSumFits, SumsFit, IsWindowSum};

use crate::stretch::{Both, at_start, step};
use fraction128::{Ext, sum};
use rational::Extended;
use std::alloc::{AllocError, Global};
use upp_curve::affine_segment::{Line, Piece};

fn sum_values(a: Ext, b: Ext) -> Ext
    requires { ValueSumFits a b }
    ensures { result ≡ a +ₑ b }
{
    match a {
        Extended::Inf => Extended::Inf,
        Extended::Fin(x) => match b {
            Extended::Inf => Extended::Inf,
            Extended::Fin(y) => Extended::Fin(sum(x, y)),
        },
    }
}

fn sum_lines(a: Option<Line>, b: Option<Line>) -> Option<Line>
    requires { LineSumFits a b }
    ensures { result ≡ sum_line a b }
{
    match a {
        None => None,
        Some(l) => match b {
            None => None,
            Some(m) => Some(Line {
                icept: sum(l.icept, m.icept),
                slope: sum(l.slope, m.slope),
            }),
        },
    }
}

fn sum_stretch(b: &Both) -> Piece
    requires { StretchSumFits b.now }
    ensures { result ≡ sum_piece b.now }
{
    Piece {
        x: b.left.x,
        at: sum_values(b.left.at, b.right.at),
        line: sum_lines(b.left.line, b.right.line),
    }
}

/// The sum of two windows at each time from 0 on, in one pass over both.
pub fn window_sum(alloc: Global, f: &[Piece], g: &[Piece]) -> Result<Vec<Piece>, AllocError>
    requires left { StartsAtZero f.now }
    requires right { StartsAtZero g.now }
    requires cuts { CutsFit f.now g.now }
    requires sums { SumsFit f.now g.now }
    ensures { IfOk result (λ v. IsWindowSum f.now g.now v.items) }
{
    let mut walk = at_start(f, g);
    let mut pieces = Vec::with_capacity(alloc, f.len().saturating_add(g.len()))?;
    pieces.push(sum_stretch(&walk.here))?;
    while walk.i < f.len() || walk.j < g.len() {
        step(f, g, &mut walk);
        pieces.push(sum_stretch(&walk.here))?;
    }
    Ok(pieces)
}
