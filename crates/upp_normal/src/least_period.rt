//! The least period of a periodic curve, by the primes that divide the number of its pieces.

ghost use Rattle.std.specs.Prelude.{◌≡◌, ◌↔◌, ◌<◌, ◌≤◌, ◌^◌, pos, drop, length, IsTrue, MatchOption};
ghost use Prim.Native.Nat.{◌∣◌};
ghost use Rattle.rational.specs.Rational.{int, ◌/ℚ◌};
ghost use Rattle.rational.specs.Grid.{Whole};
ghost use Rattle.upp_curve.specs.affine_segment.Pieces.{Each};
ghost use Rattle.upp_curve.specs.Fitting.{LaterFits};
ghost use Rattle.upp_normal.specs.Normalising.{GoesOn, IsTurning, IsDivided, IsLeast, AreGrids, OnGrids, SharesFit, cycle_values, turn_count};

use crate::cycle::Cycle;
use fraction128::Frac;
use upp_curve::affine_segment::Piece;
use upp_curve::fitting::later;
use upp_curve::same::same_piece;

// The share where it is a whole multiple of 1 / grid.
fn share(whole: Frac, parts: usize, grid: u128) -> Option<Frac>
    requires parts { 0 < parts }
    requires some { 0 < grid }
    requires grid { grid < 2 ^ 127 }
    ensures { MatchOption result (¬ (Whole grid (whole /ℚ int (pos parts))))
        (λ s. (s ≡ whole /ℚ int (pos parts)) × Whole grid s) }
{
    if whole.numerator() == 0 {
        return Some(whole);
    }
    match Frac::div(whole, Frac::from_whole(parts as i128)) {
        Ok(s) if grid % s.denominator() == 0 => Some(s),
        _ => None,
    }
}

// Whether each piece from the k-th on is the one k before it, `by` later and `rise` higher.
fn goes_on(pieces: &[Piece], k: usize, by: Frac, rise: Frac) -> bool
    requires { Each (LaterFits by rise) pieces.now }
    ensures { IsTrue result ↔ GoesOn pieces.now k by rise }
{
    for i in k..pieces.len() {
        let moved = later(by, rise, &pieces[i - k]);
        if !same_piece(moved, pieces[i]) {
            return false;
        }
    }
    true
}

/// The pieces after the first so many.
pub(crate) fn turn_of(pieces: &[Piece], first: usize) -> &[Piece]
    requires { first ≤ length pieces.now }
    ensures { result.now ≡ drop first pieces.now }
{
    &pieces[first..]
}

// The curve with its period divided by `parts`, where that is a period; else as it is.
fn divided(cycle: Cycle, parts: usize, times: u128, values: u128) -> Cycle
    requires turning { IsTurning cycle (cycle_values cycle) }
    requires parts { 2 ≤ parts }
    requires share { parts ∣ turn_count cycle }
    requires numbers { AreGrids times values }
    requires grids { OnGrids times values (cycle_values cycle) cycle.rank cycle.period cycle.rise }
    requires fits { SharesFit times values cycle.pieces.items cycle.period cycle.rise }
    ensures { IsDivided cycle parts result }
{
    let Some(by) = share(cycle.period, parts, times) else {
        return cycle;
    };
    let Some(rise) = share(cycle.rise, parts, values) else {
        return cycle;
    };
    let turn = turn_of(&cycle.pieces, cycle.first);
    let k = turn.len() / parts;
    if !goes_on(turn, k, by, rise) {
        return cycle;
    }
    let first = cycle.first;
    let rank = cycle.rank;
    let mut pieces = cycle.pieces;
    pieces.truncate(first + k);
    Cycle {
        pieces,
        first,
        rank,
        period: by,
        rise,
    }
}

/// The curve with its least period. Each period and its rise is a whole multiple of 1 / times and of 1 / values.
pub(crate) fn least_period(cycle: Cycle, times: u128, values: u128) -> Cycle
    requires turning { IsTurning cycle (cycle_values cycle) }
    requires numbers { AreGrids times values }
    requires grids { OnGrids times values (cycle_values cycle) cycle.rank cycle.period cycle.rise }
    requires fits { SharesFit times values cycle.pieces.items cycle.period cycle.rise }
    ensures { IsLeast times values cycle result }
{
    let mut rest = turn_of(&cycle.pieces, cycle.first).len();
    let mut found = cycle;
    let mut parts = 2;
    while parts <= rest {
        if rest % parts != 0 {
            parts += 1;
        } else {
            rest /= parts;
            found = divided(found, parts, times, values);
        }
    }
    found
}
