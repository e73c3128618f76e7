//! The scan for the running supremum.

ghost use Rattle.std.specs.Prelude.{IfOk};
ghost use Rattle.plain_operators.specs.running.Scans.{IsWindow, ScanFits};
ghost use Rattle.plain_operators.specs.running.Made.{IsSupremumScan};

use crate::running::bend::{highest, push_bent};
use crate::running::stretch::stretch_at;
use fraction128::{Frac, greater};
use std::alloc::{AllocError, Global};
use upp_curve::affine_segment::Piece;

/// The supremum of a window over the times up to each time before `end`. A limit that is not taken counts.
pub fn supremum_scan(alloc: Global, ps: &[Piece], end: Frac) -> Result<Vec<Piece>, AllocError>
    requires window { IsWindow end ps.now }
    requires fits { ScanFits end ps.now }
    ensures { IfOk result (λ v. IsSupremumScan ps.now end v.items) }
{
    let mut level = stretch_at(ps, 0, end).at;
    let mut out = Vec::new(alloc);
    for i in 0..ps.len() {
        let s = stretch_at(ps, i, end);
        let top = greater(level, s.at);
        let bend = highest(top, &s);
        push_bent(&mut out, s.from, top, &bend)?;
        level = greater(top, greater(s.right, s.left));
    }
    Ok(out)
}
