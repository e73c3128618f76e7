//! Whether two curves are stored alike.

ghost use Rattle.std.specs.Prelude.{◌≡◌, ◌↔◌, IsTrue};

use crate::affine_segment::{Line, Piece};
use crate::curve::Tail;
use fraction128::Ext;
use rational::Extended;

/// Whether two values are one.
#[inline]
pub fn same_ext(a: Ext, b: Ext) -> bool
    ensures { IsTrue result ↔ (a ≡ b) }
{
    match a {
        Extended::Fin(x) => match b {
            Extended::Fin(y) => x == y,
            Extended::Inf => false,
        },
        Extended::Inf => match b {
            Extended::Fin(_) => false,
            Extended::Inf => true,
        },
    }
}

#[inline]
fn same_line(a: Line, b: Line) -> bool
    ensures { IsTrue result ↔ (a ≡ b) }
{
    a.icept == b.icept && a.slope == b.slope
}

/// Whether two lines, or the want of them, are one.
#[inline]
pub fn same_lines(a: Option<Line>, b: Option<Line>) -> bool
    ensures { IsTrue result ↔ (a ≡ b) }
{
    match (a, b) {
        (Some(l), Some(m)) => same_line(l, m),
        (None, None) => true,
        _ => false,
    }
}

/// Whether two pieces are stored alike.
pub fn same_piece(a: Piece, b: Piece) -> bool
    ensures { IsTrue result ↔ (a ≡ b) }
{
    a.x == b.x && same_ext(a.at, b.at) && same_lines(a.line, b.line)
}

pub(crate) fn same_tail(a: Tail, b: Tail) -> bool
    ensures { IsTrue result ↔ (a ≡ b) }
{
    match a {
        Tail::Periodic { rank, period, rise } => match b {
            Tail::Periodic {
                rank: other_rank,
                period: other_period,
                rise: other_rise,
            } => rank == other_rank && period == other_period && rise == other_rise,
            _ => false,
        },
        Tail::Affine { rank } => match b {
            Tail::Affine { rank: other } => rank == other,
            _ => false,
        },
        Tail::Infinite { rank } => match b {
            Tail::Infinite { rank: other } => rank == other,
            _ => false,
        },
    }
}

pub(crate) fn same_pieces(a: &[Piece], b: &[Piece]) -> bool
    ensures { IsTrue result ↔ (a.now ≡ b.now) }
{
    if a.len() != b.len() {
        return false;
    }
    for i in 0..a.len() {
        if !same_piece(a[i], b[i]) {
            return false;
        }
    }
    true
}
