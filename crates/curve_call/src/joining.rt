//! Pieces added to others where they do not go on with the last one.

ghost use Rattle.std.specs.Prelude.{◌≡◌, true, false, List, [], ◌∷◌, ◌++◌, Some, IfSome, IsTrue, OnOk};
ghost use Rattle.rational.specs.Extended.{min_ext};
ghost use Rattle.upp_curve.specs.declared.affine_segment.line.Piece.{Piece as SpecPiece};
ghost use Rattle.upp_curve.specs.Normal.{Continues};
ghost use Rattle.upp_curve.specs.affine_segment.Values.{line_value};
ghost use Rattle.curve_call.specs.declared.made.Made.TheVariants.{Lower};
ghost use Rattle.curve_call.specs.Joining.{GoesOnLast, JoinsTo};
ghost use Rattle.curve_call.specs.Made.{made_line, first_piece, HasParts, StretchMadeFits};

use crate::lie::{meeting_of, order_of};
use crate::short::short_value;
use crate::stretch::{Both, readable_line};
use fraction128::{Ext, Frac};
use rational::Extended;
use std::alloc::AllocError;
use std::cmp::Ordering;
use upp_curve::affine_segment::{Line, Piece, value};
use upp_curve::same::{same_ext, same_lines};

// The value of a line; none where a step to it does not fit. A call of its own, since most lines are short.
#[inline(never)]
fn long_value(line: &Line, t: Frac) -> Option<Ext>
    ensures { IfSome result (λ v. v ≡ line_value (Some line.now) t) }
{
    match value(line, t) {
        Ok(v) => Some(Extended::Fin(v)),
        Err(_) => None,
    }
}

/// The value of a line that may be missing; none where a step to it does not fit.
#[inline(always)]
pub fn line_there(line: &Option<Line>, t: Frac) -> Option<Ext>
    ensures { IfSome result (λ v. v ≡ line_value line.now t) }
{
    match line {
        None => Some(Extended::Inf),
        Some(l) => match short_value(l, t) {
            Some(v) => Some(Extended::Fin(v)),
            None => long_value(l, t),
        },
    }
}

// Whether q goes on with p's line, so that the two are one piece. Where a step does not fit it is not told.
#[inline(always)]
fn goes_on(p: &Piece, q: &Piece) -> bool
    ensures { IsTrue result → Continues p.now q.now }
{
    if !same_lines(q.line, p.line) {
        return false;
    }
    match line_there(&p.line, q.x) {
        None => false,
        Some(v) => same_ext(q.at, v),
    }
}

// Whether a piece goes on with the last one.
#[inline(always)]
fn goes_on_last(kept: &[Piece], q: &Piece) -> bool
    ensures { IsTrue result → GoesOnLast kept.now q.now }
{
    match kept.last() {
        None => false,
        Some(last) => goes_on(last, q),
    }
}

// Adds a piece, unless it goes on with the last one; part by part, since copying it as a whole would be a call.
#[inline(always)]
pub(crate) fn join(kept: &mut Vec<Piece>, q: &Piece) -> Result<(), AllocError>
    ensures { OnOk result ((all : List SpecPiece) → JoinsTo all kept.old.items → JoinsTo (all ++ q.now ∷ []) kept.new.items) }
{
    if goes_on_last(kept, q) {
        return Ok(());
    }
    kept.push(Piece {
        x: q.x,
        at: q.at,
        line: q.line,
    })?;
    Ok(())
}

// The line that is the lower one, in its place, since a line is long to copy.
#[inline(always)]
fn lower_line(below: bool, b: &Both) -> &Option<Line>
    ensures { result.now ≡ made_line Lower below b.now.left.line b.now.right.line }
{
    if below { &b.left.line } else { &b.right.line }
}

#[inline(always)]
fn is_at_most(a: &Ext, b: &Ext) -> bool
    ensures least { IsTrue result → min_ext a.now b.now ≡ a.now }
    ensures greater { result ≡ false → min_ext a.now b.now ≡ b.now }
{
    match b {
        Extended::Inf => true,
        Extended::Fin(y) => match a {
            Extended::Inf => false,
            Extended::Fin(x) => match x.cmp(y) {
                Ordering::Greater => false,
                _ => true,
            },
        },
    }
}

// Adds the beginning of a stretch with the value of one piece and the line of another. A call of its own, since mostly the
// lower line has the lower value too.
#[inline(never)]
fn join_apart(kept: &mut Vec<Piece>, own: &Piece, at: &Ext) -> Result<(), AllocError>
    ensures { OnOk result ((all : List SpecPiece) → JoinsTo all kept.old.items
        → JoinsTo (all ++ record { x = own.now.x; at = at.now; line = own.now.line } ∷ []) kept.new.items) }
{
    join(
        kept,
        &Piece {
            x: own.x,
            at: *at,
            line: own.line,
        },
    )
}

// Adds the beginning of a stretch: the piece of the lower line, as it is where its value is the lower one too.
#[inline(always)]
fn join_lower(kept: &mut Vec<Piece>, own: &Piece, other: &Piece) -> Result<(), AllocError>
    ensures { OnOk result ((all : List SpecPiece) → JoinsTo all kept.old.items
        → JoinsTo (all ++ record { x = own.now.x; at = min_ext own.now.at other.now.at; line = own.now.line } ∷ [])
        kept.new.items) }
{
    if is_at_most(&own.at, &other.at) {
        return join(kept, own);
    }
    join_apart(kept, own, &other.at)
}

// One of both pieces, in its place.
#[inline(always)]
fn side(is_left: bool, b: &Both) -> &Piece
    ensures left { is_left ≡ true → result.now ≡ b.now.left }
    ensures right { is_left ≡ false → result.now ≡ b.now.right }
{
    if is_left { &b.left } else { &b.right }
}

// Adds the beginning of a stretch of which the lower line is told.
#[inline(always)]
fn join_first(kept: &mut Vec<Piece>, b: &Both, below: bool) -> Result<(), AllocError>
    requires { b.now.left.x ≡ b.now.right.x }
    ensures { OnOk result ((all : List SpecPiece) → JoinsTo all kept.old.items
        → JoinsTo (all ++ first_piece Lower below b.now ∷ []) kept.new.items) }
{
    join_lower(kept, side(below, b), side(!below, b))?;
    Ok(())
}

// Adds the pieces of the lower where it is not told which line is nowhere above the other throughout. A call of its own,
// since few stretches need it.
#[inline(never)]
fn join_meeting(kept: &mut Vec<Piece>, b: &Both, to: Frac) -> Result<(), AllocError>
    requires fits { StretchMadeFits to b.now }
    requires together { b.now.left.x ≡ b.now.right.x }
    ensures { OnOk result ((all : List SpecPiece) → JoinsTo all kept.old.items
        → (more : List SpecPiece) × HasParts Lower b.now to all more × JoinsTo more kept.new.items) }
{
    let lie = meeting_of(b, to);
    join_first(kept, b, lie.below)?;
    match lie.turn {
        None => Ok(()),
        Some(x) => {
            let line = lower_line(!lie.below, b);
            let at = readable_line(line, x);
            join(kept, &Piece { x, at, line: *line })?;
            Ok(())
        }
    }
}

/// Adds the pieces of the lower on a stretch, those left out that go on with the last one.
#[inline]
pub(crate) fn join_parts(kept: &mut Vec<Piece>, b: &Both, to: Frac) -> Result<(), AllocError>
    requires fits { StretchMadeFits to b.now }
    requires together { b.now.left.x ≡ b.now.right.x }
    ensures { OnOk result ((all : List SpecPiece) → JoinsTo all kept.old.items
        → (more : List SpecPiece) × HasParts Lower b.now to all more × JoinsTo more kept.new.items) }
{
    match order_of(b, to) {
        Some(below) => {
            join_first(kept, b, below)?;
            Ok(())
        }
        None => join_meeting(kept, b, to),
    }
}
