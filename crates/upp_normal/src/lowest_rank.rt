//! The least rank of a periodic curve, by one piece at a time.

ghost use Rattle.std.specs.Prelude.{◌≡◌, ◌<◌, ◌≤◌, MatchOption, length};
ghost use Rattle.rational.specs.Rational.{◌+ℚ◌};
ghost use Rattle.upp_curve.specs.declared.affine_segment.line.Piece.{Piece};
ghost use Rattle.upp_curve.specs.affine_segment.Reading.{read};
ghost use Rattle.upp_curve.specs.Curve.{repeated};
ghost use Rattle.upp_curve.specs.Unrolled.{line_later, upto};
ghost use Rattle.upp_curve.specs.affine_segment.Fits.{LineFitsAt};
ghost use Rattle.upp_curve.specs.Fitting.{LaterFits};
ghost use Rattle.upp_normal.specs.Normalising.{IsCycle, IsLowest, Lowers, RepeatsIn, StepFits, StepsFit, cut_last};

use crate::cycle::Cycle;
use fraction128::Frac;
use std::cmp::Ordering;
use upp_curve::affine_segment::{Piece, piece_value};
use upp_curve::fitting::later;
use upp_curve::same::{same_ext, same_lines};

// The time a period after the start of p, where p's values repeat in the piece `last`.
fn repeats_in(p: &Piece, last: &Piece, period: Frac, rise: Frac) -> Option<Frac>
    requires moved { LaterFits period rise p.now }
    requires reached { last.now.line ≡ line_later period rise p.now.line
        → LineFitsAt (p.now.x +ℚ period) last.now.line }
    ensures { MatchOption result (¬ (RepeatsIn p.now last.now period rise))
        (λ end. RepeatsIn p.now last.now period rise × (end ≡ p.now.x +ℚ period)) }
{
    let moved = later(period, rise, p);
    match last.x.cmp(&moved.x) {
        Ordering::Greater => return None,
        _ => {}
    }
    if !same_lines(last.line, moved.line) {
        return None;
    }
    let reached = piece_value(last, moved.x);
    if same_ext(reached, moved.at) {
        Some(moved.x)
    } else {
        None
    }
}

// Takes off the last piece where it does not start before `end`.
fn cut_off(pieces: &mut Vec<Piece>, start: Frac, end: Frac)
    requires { 0 < length pieces.old.items }
    ensures { pieces.new.items ≡ cut_last pieces.old.items start end }
{
    match start.cmp(&end) {
        Ordering::Less => {}
        _ => {
            pieces.truncate(pieces.len() - 1);
        }
    }
}

// The start before the rank, where the rule holds from it: then the pieces end a period after it.
fn lowered(pieces: &mut Vec<Piece>, first: usize, period: Frac, rise: Frac) -> Option<Frac>
    requires some { 0 < first }
    requires inside { first ≤ length pieces.old.items }
    requires fits { (z : Piece) → StepFits pieces.old.items first period rise z }
    ensures { (z : Piece) → Lowers pieces.old.items pieces.new.items first period rise z result }
{
    let before = pieces[first - 1];
    let last = pieces[pieces.len() - 1];
    match repeats_in(&before, &last, period, rise) {
        None => None,
        Some(end) => {
            cut_off(pieces, last.x, end);
            Some(before.x)
        }
    }
}

/// The curve with its least rank.
pub(crate) fn lowest_rank(cycle: Cycle) -> Cycle
    requires cycle { IsCycle cycle.pieces.items cycle.rank cycle.period }
    requires first { cycle.first ≡ length (upto cycle.rank cycle.pieces.items) }
    requires fits { StepsFit cycle.pieces.items cycle.rank cycle.period cycle.rise }
    ensures period { (result.period ≡ cycle.period) × (result.rise ≡ cycle.rise) }
    ensures lowest { IsLowest cycle.pieces.items result.pieces.items result.rank result.period result.rise cycle.rank
        (repeated (read cycle.pieces.items) cycle.rank cycle.period cycle.rise) }
{
    let period = cycle.period;
    let rise = cycle.rise;
    let mut first = cycle.first;
    let mut rank = cycle.rank;
    let mut pieces = cycle.pieces;
    while first > 0 {
        let Some(start) = lowered(&mut pieces, first, period, rise) else {
            break;
        };
        first -= 1;
        rank = start;
    }
    Cycle {
        pieces,
        first,
        rank,
        period,
        rise,
    }
}
