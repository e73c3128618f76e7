//! The curve of steps.

ghost use Rattle.std.specs.Prelude.{◌≡◌, IfOk, map};
ghost use Rattle.run_laws.specs.Cards.{whole};
ghost use Rattle.measure_curve.specs.Staircases as staircases;

use crate::ticks::time_of;
use fraction128::Frac;
use packet_windows::{Window, last_length};
use rational::Extended;
use std::alloc::{AllocError, Global};
use upp_curve::affine_segment::{Line, Piece};
use upp_curve::{Curve, Tail};

/// The bits of a step.
fn level_of(step: &Window) -> Frac
    ensures { result ≡ whole step.now.bits }
{
    Frac::from_whole(step.bits as i128)
}

/// The pieces of steps.
fn pieces_of(alloc: Global, steps: &[Window], grid: u128) -> Result<Vec<Piece>, AllocError>
    requires { staircases.Fit grid steps.now }
    ensures { IfOk result (λ v. v.items ≡ map (staircases.piece_of grid) steps.now) }
{
    let mut pieces = Vec::new(alloc);
    for step in steps {
        let level = level_of(step);
        pieces.push(Piece {
            x: time_of(step.length, grid),
            at: Extended::Fin(level),
            line: Some(Line {
                icept: level,
                slope: Frac::zero(),
            }),
        })?;
    }
    Ok(pieces)
}

/// The curve that has the bits of each step from its length on.
pub(crate) fn staircase(alloc: Global, steps: &[Window], grid: u128) -> Result<Curve, AllocError>
    requires { staircases.Fit grid steps.now }
    ensures { IfOk result (λ c. c ≡ staircases.staircase grid steps.now) }
{
    let pieces = pieces_of(alloc, steps, grid)?;
    let rank = time_of(last_length(steps), grid);
    Ok(Curve::from_normal(pieces, Tail::Affine { rank }))
}
