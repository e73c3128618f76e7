//! Where a part goes over from the one of its lines to the other.

ghost use Rattle.std.specs.Prelude.{◌≡◌, ◌*◌, ◌^◌, ◌<◌, ◌≤◌, ◌↔◌, IsTrue, MatchOption, ◌∷◌, []};
ghost use Rattle.arrival_heights.specs.Bends.{IsBend, IsUnbent, GoesOver, StaysOn};
ghost use Rattle.arrival_heights.specs.Heights.{AreSmall};

use crate::heights::Moment;
use arrival_lines::{Line, Part};

/// When the lesser of two lines goes over from the one that is lower at 0 to the other, if it does.
fn bend(low: Line, high: Line) -> Option<Moment>
    requires { low.burst ≤ high.burst }
    ensures { MatchOption result (StaysOn low high) (GoesOver low high) }
{
    if high.rate >= low.rate {
        return None;
    }
    if high.burst == low.burst {
        return None;
    }
    Some(Moment {
        over: high.burst - low.burst,
        under: low.rate - high.rate,
    })
}

/// When the part goes over from the one of its lines to the other, if it does.
pub fn bend_of(part: Part) -> Option<Moment>
    requires { AreSmall (part ∷ []) }
    ensures { MatchOption result (IsUnbent part) (IsBend part) }
{
    match part.pace {
        None => None,
        Some(pace) => {
            if pace.burst <= part.sum.burst {
                bend(pace, part.sum)
            } else {
                bend(part.sum, pace)
            }
        }
    }
}

/// Whether the time is after the first of two in picoseconds and before the second.
pub(crate) fn is_between(at: Moment, begin: u64, end: u64) -> bool
    requires over { at.over < 2 ^ 64 }
    ensures { IsTrue result ↔ ((begin * at.under < at.over * 10 ^ 12) × (at.over * 10 ^ 12 < end * at.under)) }
{
    let over = at.over as u128 * 1_000_000_000_000;
    let under = at.under as u128;
    (begin as u128) * under < over && over < (end as u128) * under
}
