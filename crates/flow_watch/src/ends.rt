//! Where the pieces of a curve end, and its first period.

ghost use Rattle.std.specs.Prelude.{◌≡◌, drop, IfSome};
ghost use Rattle.flow_watch.specs.Repeats.{IsCycleOf};
ghost use Rattle.flow_watch.specs.watch_laws.Segments.{next_start};

use fraction128::Frac;
use upp_curve::affine_segment::Piece;
use upp_curve::{Curve, Tail};

/// Where the piece of a number starts, if there is one.
pub fn next_start(pieces: &[Piece], i: usize) -> Option<Frac>
    ensures { result ≡ next_start (drop i pieces.now) }
{
    match pieces.get(i) {
        Some(p) => Some(p.x),
        None => None,
    }
}

/// From a time on, all repeats: in each period it rises by so much. `end` is where the first period ends.
#[derive(Clone, Copy)]
pub(crate) struct Cycle {
    pub(crate) rank: Frac,
    pub(crate) period: Frac,
    pub(crate) rise: Frac,
    pub(crate) end: Frac,
}

/// What repeats of a curve, if something does and its first period ends at a number that fits.
pub(crate) fn cycle_of(arrival: &Curve) -> Option<Cycle>
    ensures { IfSome result (IsCycleOf arrival.now) }
{
    let Tail::Periodic { rank, period, rise } = *arrival.tail() else {
        return None;
    };
    let Ok(end) = Frac::add(rank, period) else {
        return None;
    };
    Some(Cycle {
        rank,
        period,
        rise,
        end,
    })
}
