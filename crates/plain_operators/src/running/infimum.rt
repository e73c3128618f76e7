//! The scan for the running infimum.

ghost use Rattle.std.specs.Prelude.{IfOk};
ghost use Rattle.plain_operators.specs.running.Scans.{IsWindow, ScanFits};
ghost use Rattle.plain_operators.specs.running.Made.{IsInfimumScan};

use crate::running::bend::{lowest, push_back};
use crate::running::stretch::stretch_at;
use fraction128::{Frac, lesser};
use std::alloc::{AllocError, Global};
use upp_curve::affine_segment::Piece;

/// The infimum of a window over the times from each time on that are before `end`. A limit that is not taken counts.
pub fn infimum_scan(alloc: Global, ps: &[Piece], end: Frac) -> Result<Vec<Piece>, AllocError>
    requires window { IsWindow end ps.now }
    requires fits { ScanFits end ps.now }
    ensures { IfOk result (λ v. IsInfimumScan ps.now end v.items) }
{
    let mut level = stretch_at(ps, ps.len() - 1, end).left;
    let mut out = Vec::new(alloc);
    for i in (0..ps.len()).rev() {
        let s = stretch_at(ps, i, end);
        let bend = lowest(level, &s);
        level = lesser(s.at, lesser(level, lesser(s.right, s.left)));
        push_back(&mut out, s.from, level, &bend)?;
    }
    out.reverse();
    Ok(out)
}
