//! A curve with its value at 0 set to another.

ghost use Rattle.std.specs.Prelude.{◌≡◌, IfOk};
ghost use Rattle.upp_curve.specs.Curve.{value_at};
ghost use Rattle.subadd_closure.specs.Starting.{first_at, started_at, KeepsTail, IsStartedAt};

use fraction128::{Ext, Frac};
use rational::Extended;
use std::alloc::{AllocError, Global};
use upp_curve::Curve;
use upp_curve::affine_segment::Piece;

// The pieces with the value v at the start of the first.
fn first_at(alloc: Global, pieces: &[Piece], v: Frac) -> Result<Vec<Piece>, AllocError>
    ensures { IfOk result (λ ps. ps.items ≡ first_at (Extended.Fin v) pieces.now) }
{
    match pieces {
        [] => Ok(Vec::new(alloc)),
        [first, rest @ ..] => {
            let start = Piece {
                x: first.x,
                at: Extended::Fin(v),
                line: first.line,
            };
            let mut all = Vec::from_slice(alloc, &[start])?;
            all.extend_from_slice(rest)?;
            Ok(all)
        }
    }
}

/// The curve f with the value v at 0, where its tail stays as it is: an affine tail, or a periodic one that begins
/// after 0 and with that value at 0 does not repeat from 0 on. Refused only for want of memory.
pub fn with_start(alloc: Global, f: &Curve, v: Frac) -> Result<Curve, AllocError>
    requires { KeepsTail (value_at (started_at (Extended.Fin v) f.now)) f.now.tail }
    ensures curve { IfOk result (λ c. c ≡ started_at (Extended.Fin v) f.now) }
    ensures values { IfOk result (λ c. IsStartedAt (Extended.Fin v) f.now c) }
{
    let pieces = first_at(alloc, f.pieces(), v)?;
    Ok(Curve::from_normal(pieces, *f.tail()))
}
