//! From when on a curve repeats.

ghost use Rattle.std.specs.Prelude.{◌≡◌, pos, IfNone, IfSome, IsSome};
ghost use Rattle.rational.specs.Rational.{◌+ℚ◌, int};
ghost use Rattle.rational.specs.Ratio.{SumFits};
ghost use Rattle.upp_curve.specs.Steady.{rank_of, steady};
ghost use Rattle.upp_normal.specs.Repeating.{RepeatsFrom};

use fraction128::Frac;
use upp_curve::{Curve, Tail};
use upp_limits::{is_infinite_at, keeps_line, later_unless};

/// From when on a curve repeats with each of its periods: its rank; 1 later where the value at the rank of an affine
/// tail is not its line's, or that of an infinite tail is finite. From then on the value any whole number of periods
/// later is higher by what the tail rises over them. None exactly where that time is rank + 1 and does not fit; so
/// never for a periodic tail.
pub fn steady_time(c: &Curve) -> Option<Frac>
    ensures value { IfSome result (λ t. t ≡ steady c.now) }
    ensures repeats { IfSome result (RepeatsFrom c.now) }
    ensures fits { SumFits (rank_of c.now.tail) (int (pos 1)) → IsSome result }
    ensures none { IfNone result ((steady c.now ≡ rank_of c.now.tail +ℚ int (pos 1))
        × ¬ (SumFits (rank_of c.now.tail) (int (pos 1)))) }
{
    let pieces = c.pieces();
    let last = &pieces[pieces.len() - 1];
    match c.tail() {
        Tail::Periodic { rank, .. } => Some(*rank),
        Tail::Affine { rank } => match keeps_line(last, *rank) {
            Some(keeps) => later_unless(keeps, *rank),
            None => None,
        },
        Tail::Infinite { rank } => later_unless(is_infinite_at(last, *rank), *rank),
    }
}
