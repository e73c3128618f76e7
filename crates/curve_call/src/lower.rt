//! The lower of two windows of any pieces.

ghost use Rattle.std.specs.Prelude.{IfOk};
ghost use Rattle.upp_curve.specs.affine_segment.Pieces.{StartsAtZero};
ghost use Rattle.curve_call.specs.Stretches.{CutsFit};
ghost use Rattle.curve_call.specs.Lower.{LowerFits, IsLowerOf};

use crate::alone::{alone_until, pass_left, pass_right};
use crate::joining::join_parts;
use crate::stretch::{at_start, step, stretch_end};
use fraction128::Frac;
use std::alloc::{AllocError, Global};
use upp_curve::affine_segment::Piece;

/// The lower of two windows at each time from 0 on and before `end`, where the steps of their stretches fit, in one pass
/// over both. While one of both is infinite, the other's pieces are taken as they are; else a piece that goes on with the
/// one before it is left out. Only a lack of memory is an error.
pub fn window_lower(
    alloc: Global,
    f: &[Piece],
    g: &[Piece],
    end: Frac,
) -> Result<Vec<Piece>, AllocError>
    requires left { StartsAtZero f.now }
    requires right { StartsAtZero g.now }
    requires cuts { CutsFit f.now g.now }
    requires fits { LowerFits end f.now g.now }
    ensures { IfOk result (λ v. IsLowerOf f.now g.now end v.items) }
{
    let mut walk = at_start(f, g);
    let mut kept = Vec::with_capacity(alloc, f.len().saturating_add(g.len()))?;
    while walk.i < f.len() || walk.j < g.len() {
        let i = alone_until(f, walk.i, &walk.here.right, g, walk.j);
        if i > walk.i {
            pass_left(&mut kept, f, i, &mut walk)?;
            continue;
        }
        let j = alone_until(g, walk.j, &walk.here.left, f, walk.i);
        if j > walk.j {
            pass_right(&mut kept, g, j, &mut walk)?;
            continue;
        }
        let to = stretch_end(f, g, &walk, end);
        join_parts(&mut kept, &walk.here, to)?;
        step(f, g, &mut walk);
    }
    join_parts(&mut kept, &walk.here, end)?;
    Ok(kept)
}
