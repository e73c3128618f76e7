//! One finite piece of a window, with its end.

ghost use Rattle.std.specs.Prelude.{◌≡◌, ◌<◌, length, drop, Some};
ghost use Rattle.rational.specs.declared.Extended.TheVariants.{Fin};
ghost use Rattle.upp_curve.specs.affine_segment.Values.{line_at};
ghost use Rattle.upp_curve.specs.affine_segment.Fits.{LineFits};
ghost use Rattle.upp_curve.specs.Shapes.{IsNumber, IsLine};
ghost use Rattle.plain_operators.specs.running.Scans.{start_or, IsWindow, ScanFits, IsStretch};

use fraction128::{Ext, Frac};
use rational::Extended;
use upp_curve::affine_segment::{Line, Piece, line_at};

/// A piece with a number at its start and a line after it, the time at which it ends, and the limits of the line:
/// the right one at its start, the left one at its end.
#[derive(Clone, Copy)]
pub(crate) struct Stretch {
    pub(crate) from: Frac,
    pub(crate) at: Frac,
    pub(crate) line: Line,
    pub(crate) to: Frac,
    pub(crate) right: Frac,
    pub(crate) left: Frac,
}

fn number_of(v: &Ext) -> Frac
    requires { IsNumber v.now }
    ensures { v.now ≡ Fin result }
{
    match *v {
        Extended::Fin(x) => x,
        Extended::Inf => Frac::zero(),
    }
}

fn line_of(p: &Piece) -> Line
    requires { IsLine p.now.line }
    ensures { p.now.line ≡ Some result }
{
    match p.line {
        Some(line) => line,
        None => Line {
            icept: p.x,
            slope: p.x,
        },
    }
}

// Where the i-th piece starts, and `end` where there is none.
fn start_of(ps: &[Piece], i: usize, end: Frac) -> Frac
    ensures { result ≡ start_or end (drop i ps.now) }
{
    match ps.get(i) {
        Some(p) => p.x,
        None => end,
    }
}

/// The i-th piece of a window that ends at `end`.
pub(crate) fn stretch_at(ps: &[Piece], i: usize, end: Frac) -> Stretch
    requires index { i < length ps.now }
    requires window { IsWindow end ps.now }
    requires fits { ScanFits end ps.now }
    ensures { IsStretch ps.now end i result }
{
    let p = ps[i];
    let to = start_of(ps, i + 1, end);
    let line = line_of(&p);
    Stretch {
        from: p.x,
        at: number_of(&p.at),
        line,
        to,
        right: line_at(&line, p.x),
        left: line_at(&line, to),
    }
}
