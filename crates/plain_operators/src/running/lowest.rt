//! The lowest of some pieces from each time on, where they go on for ever by repeating.

ghost use Rattle.std.specs.Prelude.{◌≡◌, pos, IfOk};
ghost use Rattle.rational.specs.Rational.{int, ◌≤ℚ◌};
ghost use Rattle.rational.specs.declared.Extended.TheVariants.{Fin};
ghost use Rattle.upp_curve.specs.affine_segment.Values.{line_value};
ghost use Rattle.upp_limits.specs.Limits.{Sizes};
ghost use Rattle.upp_curve.specs.affine_segment.Pieces.{Each, StartsAtZero};
ghost use Rattle.upp_curve.specs.affine_segment.Fits.{LineFitsAt};
ghost use Rattle.upp_curve.specs.affine_segment.Reading.{read};
ghost use Rattle.upp_curve.specs.Shapes.{IsFinitePiece, IsLine, IsNumber};
ghost use Rattle.upp_curve.specs.Steady.{last_line};
ghost use Rattle.plain_operators.specs.running.Scans.{IsWindow, ScanFits};
ghost use Rattle.plain_operators.specs.running.Lowest.{level_piece, with_level, IsLowestBefore, IsLowestCall, IsLowest};

use crate::running::numbers::number_of;
use crate::running::{front_before, infimum_scan};
use fraction128::{Ext, Frac, lesser, sum};
use rational::Extended;
use std::alloc::{AllocError, Global};
use upp_curve::affine_segment::{Line, Piece, line_value, piece_at, piece_value};

// The value of finite pieces at t.
fn value_in(pieces: &[Piece], t: Frac) -> Frac
    requires starts { StartsAtZero pieces.now }
    requires time { int (pos 0) ≤ℚ t }
    requires fits { Each (λ p. LineFitsAt t p.line) pieces.now }
    requires finite { IsNumber (read pieces.now t) }
    ensures { read pieces.now t ≡ Fin result }
{
    number_of(piece_value(&piece_at(pieces, t), t))
}

// The line of the last piece.
fn last_line(pieces: &[Piece]) -> Option<Line>
    ensures { result ≡ last_line pieces.now }
{
    match pieces.last() {
        None => None,
        Some(p) => p.line,
    }
}

// The limit of the last line at t.
fn last_limit(pieces: &[Piece], t: Frac) -> Frac
    requires fits { LineFitsAt t (last_line pieces.now) }
    requires finite { IsNumber (line_value (last_line pieces.now) t) }
    ensures { line_value (last_line pieces.now) t ≡ Fin result }
{
    number_of(line_value(last_line(pieces), t))
}

fn level_piece(x: Frac, v: Frac) -> Piece
    ensures { result ≡ level_piece x v }
{
    Piece {
        x,
        at: Extended::Fin(v),
        line: Some(Line {
            icept: v,
            slope: Frac::zero(),
        }),
    }
}

// The infimum of some pieces and of a level from `end` on, over all times from each time before `end` on.
fn lowest_before(
    alloc: Global,
    pieces: Vec<Piece>,
    level: Frac,
    end: Frac,
    far: Frac,
) -> Result<Vec<Piece>, AllocError>
    requires window { IsWindow far (with_level pieces.items end level) }
    requires fits { ScanFits far (with_level pieces.items end level) }
    ensures { IfOk result (λ v. IsLowestBefore (with_level pieces.items end level) end far v.items) }
{
    let mut all = pieces;
    all.push(level_piece(end, level))?;
    let scanned = infimum_scan(alloc, &all, far)?;
    front_before(alloc, &scanned, end)
}

/// The infimum of some pieces over all times from each time before `end` on, where from `from` on they repeat with the
/// period that ends at `end`, a rise higher each time; `far` is some time past `end`. The first scan finds the infimum
/// from `from` on; a rise higher it is that of all that comes after `end`, and bounds the second scan.
pub(crate) fn lowest_pieces(
    alloc: Global,
    pieces: Vec<Piece>,
    from: Frac,
    end: Frac,
    far: Frac,
    rise: Frac,
) -> Result<Vec<Piece>, AllocError>
    requires { (z : Sizes) × IsLowestCall z pieces.items from end far rise }
    ensures { IfOk result (λ v. IsLowest pieces.items from end far rise v.items) }
{
    let once = infimum_scan(alloc, &pieces, end)?;
    let later = sum(value_in(&once, from), rise);
    let level = lesser(later, last_limit(&pieces, end));
    lowest_before(alloc, pieces, level, end, far)
}
