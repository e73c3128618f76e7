//! The greatest and the least of a level and of a line, on one stretch.

ghost use Rattle.std.specs.Prelude.{◌≡◌, pos, ◌++◌, true, false, IfOk};
ghost use Rattle.rational.specs.Rational.{◌<ℚ◌, int};
ghost use Rattle.upp_curve.specs.affine_segment.Values.{line_at};
ghost use Rattle.plain_operators.specs.running.Scans.{flat, MeetingFits};
ghost use Rattle.plain_operators.specs.running.Bends.{risen, sunk, Follows, bent, bent_back};
ghost use Rattle.plain_operators.specs.running.Made.{IsMeeting, IsMadeOf};

use crate::running::stretch::Stretch;
use fraction128::{Frac, greater, lesser};
use rational::Extended;
use std::alloc::AllocError;
use std::cmp::Ordering;
use upp_curve::affine_segment::{Line, Piece, cross};

/// The line just after the start of a stretch, and the piece that takes over from it, if one does.
#[derive(Debug, Clone, Copy)]
pub struct Bend {
    pub line: Line,
    pub turn: Option<Piece>,
}

fn level_line(v: Frac) -> Line
    ensures { result ≡ flat v }
{
    Line {
        icept: v,
        slope: Frac::zero(),
    }
}

// Where a line that rises comes to a level.
fn meeting(level: Frac, line: &Line) -> Frac
    requires rises { int (pos 0) <ℚ line.now.slope }
    requires fits { MeetingFits level line.now }
    ensures { IsMeeting level line.now result }
{
    match cross(line, &level_line(level)) {
        Ok(Some(t)) => t,
        Ok(None) => level,
        Err(_) => level,
    }
}

fn straight(line: Line) -> Bend
    ensures { result ≡ record { line = line; turn = None } }
{
    Bend { line, turn: None }
}

// A bend to a line at its meeting with a level.
fn turned(first: Line, x: Frac, level: Frac, second: Line) -> Bend
    ensures { result ≡ record {
      line = first;
      turn = Some record { x = x; at = Extended.Fin level; line = Some second };
    } }
{
    Bend {
        line: first,
        turn: Some(Piece {
            x,
            at: Extended::Fin(level),
            line: Some(second),
        }),
    }
}

// Of a line that rises: the level up to where the two meet, and then the line.
fn highest_rising(level: Frac, s: &Stretch) -> Bend
    requires some { s.now.from <ℚ s.now.to }
    requires right { s.now.right ≡ line_at s.now.line s.now.from }
    requires left { s.now.left ≡ line_at s.now.line s.now.to }
    requires rises { int (pos 0) <ℚ s.now.line.slope }
    requires fits { MeetingFits level s.now.line }
    ensures follows { Follows (risen level s.now.line s.now.from) s.now.from s.now.to result.line result.turn }
    ensures made { IsMadeOf true level s.now result }
{
    match level.cmp(&s.right) {
        Ordering::Greater => match level.cmp(&s.left) {
            Ordering::Less => {
                let x = meeting(level, &s.line);
                turned(level_line(level), x, level, s.line)
            }
            _ => straight(level_line(level)),
        },
        _ => straight(s.line),
    }
}

/// The greatest of a level and of all values of the stretch's line up to each time.
pub(crate) fn highest(level: Frac, s: &Stretch) -> Bend
    requires some { s.now.from <ℚ s.now.to }
    requires right { s.now.right ≡ line_at s.now.line s.now.from }
    requires left { s.now.left ≡ line_at s.now.line s.now.to }
    requires fits { int (pos 0) <ℚ s.now.line.slope → MeetingFits level s.now.line }
    ensures follows { Follows (risen level s.now.line s.now.from) s.now.from s.now.to result.line result.turn }
    ensures made { IsMadeOf true level s.now result }
{
    match s.line.slope.cmp(&Frac::zero()) {
        Ordering::Greater => highest_rising(level, s),
        _ => straight(level_line(greater(level, s.right))),
    }
}

// Of a line that rises: the line up to where the two meet, and then the level.
fn lowest_rising(level: Frac, s: &Stretch) -> Bend
    requires some { s.now.from <ℚ s.now.to }
    requires right { s.now.right ≡ line_at s.now.line s.now.from }
    requires left { s.now.left ≡ line_at s.now.line s.now.to }
    requires rises { int (pos 0) <ℚ s.now.line.slope }
    requires fits { MeetingFits level s.now.line }
    ensures follows { Follows (sunk level s.now.line s.now.to) s.now.from s.now.to result.line result.turn }
    ensures made { IsMadeOf false level s.now result }
{
    match level.cmp(&s.right) {
        Ordering::Greater => match level.cmp(&s.left) {
            Ordering::Less => {
                let x = meeting(level, &s.line);
                turned(s.line, x, level, level_line(level))
            }
            _ => straight(s.line),
        },
        _ => straight(level_line(level)),
    }
}

/// The least of a level and of all values of the stretch's line from each time on.
pub(crate) fn lowest(level: Frac, s: &Stretch) -> Bend
    requires some { s.now.from <ℚ s.now.to }
    requires right { s.now.right ≡ line_at s.now.line s.now.from }
    requires left { s.now.left ≡ line_at s.now.line s.now.to }
    requires fits { int (pos 0) <ℚ s.now.line.slope → MeetingFits level s.now.line }
    ensures follows { Follows (sunk level s.now.line s.now.to) s.now.from s.now.to result.line result.turn }
    ensures made { IsMadeOf false level s.now result }
{
    match s.line.slope.cmp(&Frac::zero()) {
        Ordering::Greater => lowest_rising(level, s),
        _ => straight(level_line(lesser(level, s.left))),
    }
}

/// Appends the pieces of a stretch.
pub(crate) fn push_bent(out: &mut Vec<Piece>, x: Frac, v: Frac, b: &Bend) -> Result<(), AllocError>
    ensures { IfOk result (λ _. out.new.items ≡ out.old.items ++ bent x v b.now.line b.now.turn) }
{
    out.push(Piece {
        x,
        at: Extended::Fin(v),
        line: Some(b.line),
    })?;
    match b.turn {
        Some(q) => {
            out.push(q)?;
            Ok(())
        }
        None => Ok(()),
    }
}

/// Appends the pieces of a stretch, the last first.
pub(crate) fn push_back(out: &mut Vec<Piece>, x: Frac, v: Frac, b: &Bend) -> Result<(), AllocError>
    ensures { IfOk result (λ _. out.new.items ≡ out.old.items ++ bent_back x v b.now.line b.now.turn) }
{
    let first = Piece {
        x,
        at: Extended::Fin(v),
        line: Some(b.line),
    };
    match b.turn {
        Some(q) => {
            out.push(q)?;
            out.push(first)?;
            Ok(())
        }
        None => {
            out.push(first)?;
            Ok(())
        }
    }
}
