//! The supremum of a window between two times.

ghost use Rattle.std.specs.Prelude.{◌≡◌, ◌+◌, ◌<◌, pos, length, drop};
ghost use Rattle.rational.specs.Rational.{ℚ, int, ◌≤ℚ◌, ◌<ℚ◌};
ghost use Rattle.rational.specs.Extended.{◌≤ₑ◌};
ghost use Rattle.rational.specs.declared.Extended.TheVariants.{Fin};
ghost use Rattle.upp_curve.specs.affine_segment.Reading.{read};
ghost use Rattle.plain_operators.specs.running.Scans.{start_or, IsWindow, ScanFits, IsSupremumIn};
ghost use Rattle.plain_operators.specs.running.Between.{FitsAtBoth, IsLevelBetween, IsHighestIn};

use crate::running::stretch::stretch_at;
use fraction128::{Frac, greater, lesser};
use std::cmp::Ordering;
use upp_curve::affine_segment::{Piece, line_at};

// What the i-th piece has between two times: 0 where it has none of them.
fn highest_in(ps: &[Piece], i: usize, end: Frac, from: Frac, to: Frac) -> Frac
    requires index { i < length ps.now }
    requires window { IsWindow end ps.now }
    requires fits { ScanFits end ps.now }
    requires both { FitsAtBoth from to ps.now }
    ensures highest { IsHighestIn (read ps.now) (start_or end (drop i ps.now))
        (start_or end (drop (i + 1) ps.now)) from to result }
    ensures level { IsLevelBetween end from to ps.now result }
    ensures rises { start_or end (drop i ps.now) ≤ℚ start_or end (drop (i + 1) ps.now) }
{
    let s = stretch_at(ps, i, end);
    let low = greater(s.from, from);
    let high = lesser(s.to, to);
    match low.cmp(&high) {
        Ordering::Less => {
            let first = line_at(&s.line, low);
            let last = line_at(&s.line, high);
            match from.cmp(&s.from) {
                Ordering::Greater => greater(first, last),
                _ => greater(s.at, greater(first, last)),
            }
        }
        _ => Frac::zero(),
    }
}

/// The supremum of a window over the times from `from` on that are before `to`.
pub(crate) fn supremum_between(ps: &[Piece], end: Frac, from: Frac, to: Frac) -> Frac
    requires window { IsWindow end ps.now }
    requires fits { ScanFits end ps.now }
    requires both { FitsAtBoth from to ps.now }
    requires first { int (pos 0) ≤ℚ from }
    requires some { from <ℚ to }
    requires last { to ≤ℚ end }
    requires nonneg { (t : ℚ) → int (pos 0) ≤ℚ t → t <ℚ end → Fin (int (pos 0)) ≤ₑ read ps.now t }
    ensures supremum { IsSupremumIn (read ps.now) from to (Fin result) }
    ensures level { IsLevelBetween end from to ps.now result }
{
    let mut level = Frac::zero();
    for i in 0..ps.len() {
        level = greater(level, highest_in(ps, i, end, from, to));
    }
    level
}
