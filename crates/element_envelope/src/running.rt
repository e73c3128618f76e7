//! One line, moved to each start of some pieces: the lowest of these as it runs on.

ghost use Rattle.std.specs.Prelude.{◌≡◌, None, IfOk, IfSome};
ghost use Rattle.rational.specs.Rational.{ℚ};
ghost use Rattle.rational.specs.declared.Extended.TheVariants.{Inf};
ghost use Rattle.upp_curve.specs.affine_segment.Values.{line_value};
ghost use Rattle.upp_curve.specs.affine_segment.Fits.{LineFitsAt};
ghost use Rattle.element_envelope.specs.CopyWindows.{HaveWindowRoom};
ghost use Rattle.element_envelope.specs.RunningLines.{moved_to, MovesTo, line_from, reached, passed, running};
ghost use Rattle.element_envelope.specs.RunningLines.{StartsBelow, IsOneLine, RunningRoom, StepRoom};

use crate::least::MadePieces;
use crate::starts::is_below;
use fraction128::{Ext, Frac, difference, lesser_value, product, sum};
use rational::Extended;
use std::alloc::Global;
use upp_curve::affine_segment::{Line, Piece, line_value};

// What a line is at 0 when it is moved x later and v higher.
fn moved_to(line: &Line, x: Frac, v: Ext) -> Ext
    requires { MovesTo line.now x v }
    ensures { result ≡ moved_to line.now x v }
{
    match v {
        Extended::Inf => Extended::Inf,
        Extended::Fin(w) => {
            let risen = sum(line.icept, w);
            Extended::Fin(difference(risen, product(line.slope, x)))
        }
    }
}

// The line of a slope with this value at 0; none is infinity.
fn line_from(slope: Frac, at: Ext) -> Option<Line>
    ensures { result ≡ line_from slope at }
{
    match at {
        Extended::Inf => None,
        Extended::Fin(icept) => Some(Line { icept, slope }),
    }
}

// The lowest at the start of a piece.
fn reached(line: &Line, low: &Ext, before: &Option<Line>, q: &Piece) -> Ext
    requires { (end : ℚ) × StepRoom end line.now low.now before.now q.now }
    ensures { result ≡ reached line.now low.now before.now q.now }
{
    let limit = moved_to(line, q.x, line_value(*before, q.x));
    let at = moved_to(line, q.x, q.at);
    lesser_value(*low, lesser_value(limit, at))
}

// The lowest after it.
fn passed(line: &Line, low: &Ext, q: &Piece) -> Ext
    requires { (end : ℚ) × StepRoom end line.now low.now None q.now }
    ensures { result ≡ passed line.now low.now q.now }
{
    lesser_value(*low, moved_to(line, q.x, line_value(q.line, q.x)))
}

// Both, as a piece.
fn running_piece(line: &Line, here: &Ext, past: &Ext, q: &Piece) -> Piece
    requires { LineFitsAt q.now.x (line_from line.now.slope here.now) }
    ensures { result ≡ record { x = q.now.x; at = line_value (line_from line.now.slope here.now) q.now.x; line = line_from line.now.slope past.now } }
{
    Piece {
        x: q.x,
        at: line_value(line_from(line.slope, *here), q.x),
        line: line_from(line.slope, *past),
    }
}

/// The lowest of a line that is moved to each start of some pieces, by the value there and by the limits beside it, as pieces. Only a
/// lack of memory is an error.
pub(crate) fn running_lines(alloc: Global, line: &Line, pieces: &[Piece]) -> MadePieces
    requires { (end : ℚ) × RunningRoom end line.now pieces.now }
    ensures { IfOk result (λ v. v.items ≡ running line.now Inf None pieces.now) }
{
    let mut lines = Vec::with_capacity(alloc, pieces.len())?;
    let mut low = Extended::Inf;
    let mut before = None;
    for q in pieces {
        let here = reached(line, &low, &before, q);
        let past = passed(line, &here, q);
        lines.push(running_piece(line, &here, &past, q))?;
        low = past;
        before = q.line;
    }
    Ok(lines)
}

// The line of a piece that starts on it or below it.
fn line_above(p: &Piece) -> Option<Line>
    requires { LineFitsAt p.now.x p.now.line }
    ensures { IfSome result (λ l. StartsBelow l p.now) }
{
    if !is_below(p.at, &p.line, p.x) {
        return None;
    }
    p.line
}

/// The line of the only piece, where that starts on it or below it; none where there are more pieces, or no line.
pub(crate) fn only_line(pieces: &[Piece]) -> Option<Line>
    requires { (end : ℚ) × HaveWindowRoom end pieces.now }
    ensures { IfSome result (λ l. IsOneLine l pieces.now) }
{
    if pieces.len() != 1 {
        return None;
    }
    line_above(&pieces[0])
}
