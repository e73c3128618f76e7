//! What two elements make, as a window.

ghost use Rattle.std.specs.Prelude.{◌≡◌, pos, ◌++◌, OnOk, IfOk};
ghost use Rattle.rational.specs.Rational.{◌≤ℚ◌, int};
ghost use Rattle.upp_curve.specs.affine_segment.Elements.{start_of, AreAdjoined};
ghost use Rattle.element_envelope.specs.JoinedWindows.{after_end, part_pieces, first_pieces, turn_pieces};
ghost use Rattle.element_envelope.specs.JoinedWindows.{joined_list, lead_of, IsWindowOf};

use fraction128::{Ext, Frac};
use rational::Extended;
use std::alloc::{AllocError, Global};
use std::cmp::Ordering;
use upp_curve::affine_segment::{Element, Joined, Piece, start_of};

/// So many pieces two elements make at most: what is before them, the two parts, and what is after.
const MOST_JOINED: usize = 4;

// Infinity from an end on.
fn push_end(pieces: &mut Vec<Piece>, end: &Ext) -> Result<(), AllocError>
    ensures { OnOk result (pieces.new.items ≡ pieces.old.items ++ after_end end.now) }
{
    if let Extended::Fin(e) = *end {
        pieces.push(Piece {
            x: e,
            at: Extended::Inf,
            line: None,
        })?;
    }
    Ok(())
}

// Where a part starts.
fn push_first(pieces: &mut Vec<Piece>, e: &Element) -> Result<(), AllocError>
    ensures { OnOk result (pieces.new.items ≡ pieces.old.items ++ first_pieces e.now) }
{
    match *e {
        Element::Point { x, v } => pieces.push(Piece {
            x,
            at: Extended::Fin(v),
            line: None,
        })?,
        Element::Open { from, to: _, line } => pieces.push(Piece {
            x: from,
            at: Extended::Inf,
            line: Some(line),
        })?,
    }
    Ok(())
}

// A part alone.
fn push_part(pieces: &mut Vec<Piece>, e: &Element) -> Result<(), AllocError>
    ensures { OnOk result (pieces.new.items ≡ pieces.old.items ++ part_pieces e.now) }
{
    push_first(pieces, e)?;
    match e {
        Element::Point { x: _, v: _ } => Ok(()),
        Element::Open {
            from: _,
            to,
            line: _,
        } => push_end(pieces, to),
    }
}

// The point at the end of a first part, and the part after it.
fn push_turn(pieces: &mut Vec<Piece>, join: &Element, second: &Element) -> Result<(), AllocError>
    ensures { OnOk result (pieces.new.items ≡ pieces.old.items ++ turn_pieces join.now second.now) }
{
    match *join {
        Element::Open {
            from: _,
            to: _,
            line: _,
        } => Ok(()),
        Element::Point { x, v } => match *second {
            Element::Point { x: _, v: _ } => Ok(()),
            Element::Open { from: _, to, line } => {
                pieces.push(Piece {
                    x,
                    at: Extended::Fin(v),
                    line: Some(line),
                })?;
                push_end(pieces, &to)
            }
        },
    }
}

// The parts, one after another.
fn push_joined(pieces: &mut Vec<Piece>, j: &Joined) -> Result<(), AllocError>
    ensures { OnOk result (pieces.new.items ≡ pieces.old.items ++ joined_list j.now.first j.now.join j.now.second) }
{
    match &j.join {
        None => push_part(pieces, &j.first),
        Some(join) => match &j.second {
            None => push_part(pieces, &j.first),
            Some(second) => {
                push_first(pieces, &j.first)?;
                push_turn(pieces, join, second)
            }
        },
    }
}

/// Infinity from 0 on, up to a later start, with room for so many pieces.
pub(crate) fn lead(alloc: Global, start: Frac, room: usize) -> Result<Vec<Piece>, AllocError>
    ensures { IfOk result (λ v. v.items ≡ lead_of start) }
{
    let mut pieces = Vec::with_capacity(alloc, room)?;
    match start.cmp(&Frac::zero()) {
        Ordering::Greater => {
            pieces.push(Piece {
                x: Frac::zero(),
                at: Extended::Inf,
                line: None,
            })?;
            Ok(pieces)
        }
        _ => Ok(pieces),
    }
}

/// What two elements make, as pieces from 0 on: infinity where no part is. The first part starts at 0 or later.
pub fn joined_window(alloc: Global, j: &Joined) -> Result<Vec<Piece>, AllocError>
    requires nonneg { int (pos 0) ≤ℚ start_of j.now.first }
    requires adjoined { AreAdjoined j.now.first j.now.join j.now.second }
    ensures { IfOk result (λ v. IsWindowOf j.now v.items) }
{
    let mut pieces = lead(alloc, start_of(&j.first), MOST_JOINED)?;
    push_joined(&mut pieces, j)?;
    Ok(pieces)
}
