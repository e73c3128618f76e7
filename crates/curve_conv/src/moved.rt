//! Whether a convolution needs no period: where a split whose first side is before the slower curve repeats makes no more
//! once it is moved by some periods of the faster curve's own. No memory is taken.

ghost use Rattle.std.specs.Prelude.{◌≡◌, pos, IfSome, IsTrue};
ghost use Rattle.rational.specs.Rational.{int, ◌*ℚ◌};
ghost use Rattle.upp_curve.specs.Steady.{steady};
ghost use Rattle.curve_conv.specs.Late.{IsLateAfter, IsLateCall};
ghost use Rattle.curve_conv.specs.Moves.{IsMove};
ghost use Rattle.curve_conv.specs.Scans.{sizes_in};

use crate::rises::rise_between;
use crate::rows::Scan;
use curve_call::{checked_product, period_or, rise_over};
use fraction128::{Frac, is_less};

/// So many moves are tried, in even steps up to a common period.
const MOVES: u32 = 16;

/// So many pieces of the slower curve are looked at for each move; of one that has more, nothing is told.
const PIECES: u32 = 16384;

/// Some periods of the faster curve's own.
#[derive(Clone, Copy)]
pub(crate) struct Move {
    /// How long they are together.
    pub(crate) time: Frac,
    /// By how much the curve rises in them.
    pub(crate) rise: Frac,
}

// n times a number, where that fits.
fn times(n: u128, q: Frac) -> Option<Frac>
    ensures { IfSome result (λ r. r ≡ int (pos n) *ℚ q) }
{
    if n >= 1 << 127 {
        return None;
    }
    let time = checked_product(Frac::from_whole(n as i128), q)?;
    Some(time)
}

// n periods of the faster curve's own; none where they are longer than a common period.
fn move_by(s: &Scan, n: u128, from: Frac, period: Frac) -> Option<Move>
    requires { IsLateCall s.now.first.now s.now.second.now from period s.now.end }
    ensures { IfSome result (IsMove (sizes_in s.now.first.now s.now.second.now s.now.end) s.now.second.now period) }
{
    let own = period_or(s.second, period);
    let time = times(n, own)?;
    let rise = times(n, rise_over(s.second, own))?;
    if !is_less(Frac::zero(), time) {
        return None;
    }
    if is_less(period, time) {
        return None;
    }
    Some(Move { time, rise })
}

// Whether a split makes no more once it is moved by n periods of the faster curve's own.
fn is_no_more(s: &Scan, first: Frac, n: u128, from: Frac, period: Frac) -> bool
    requires call { IsLateCall s.now.first.now s.now.second.now from period s.now.end }
    requires first { first ≡ steady s.now.first.now }
    ensures { IsTrue result → IsLateAfter s.now.first.now s.now.second.now from period 0 }
{
    let Some(m) = move_by(s, n, from, period) else {
        return false;
    };
    let Some(most) = rise_between(s.first, Frac::zero(), first, m.time, m.rise, PIECES) else {
        return false;
    };
    if is_less(m.rise, most) {
        return false;
    }
    true
}

// How many periods of the faster curve's own are between two moves that are tried.
fn apart(s: &Scan, period: Frac) -> u128 {
    let own = period_or(s.second, period);
    if !is_less(Frac::zero(), own) {
        return 1;
    }
    match Frac::div(period, own) {
        Ok(all) => (all.size_up() / (MOVES as u128)).saturating_add(1),
        Err(_) => 1,
    }
}

/// Whether no period is needed, as a move by some periods of the faster curve's own tells. The slower one repeats from
/// `first` on.
pub(crate) fn own_periods_suffice(s: &Scan, first: Frac, from: Frac, period: Frac) -> bool
    requires call { IsLateCall s.now.first.now s.now.second.now from period s.now.end }
    requires first { first ≡ steady s.now.first.now }
    ensures { IsTrue result → IsLateAfter s.now.first.now s.now.second.now from period 0 }
{
    let step = apart(s, period);
    for i in 1..MOVES + 1 {
        if is_no_more(s, first, step.saturating_mul(i as u128), from, period) {
            return true;
        }
    }
    false
}
