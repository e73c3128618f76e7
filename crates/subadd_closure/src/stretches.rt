//! The pieces of the stretches of sums, one after another.

ghost use Rattle.std.specs.Prelude.{◌≡◌, ◌≤◌, ◌<◌, ◌^◌, ◌++◌, ℕ, suc, [], ◌∷◌, IfOk, IfErr, OnOk, None, IsTrue, ◌↔◌};
ghost use Rattle.rational.specs.Rational.{◌≤ℚ◌};
ghost use Rattle.subadd_closure.specs.ElementCurves.{after_gap, from_zero, stretches, all_stretches};
ghost use Rattle.min_plus.specs.closure_laws.Star.{nat_times};
ghost use Rattle.subadd_closure.specs.PieceFits.{IsUnfit, SlopeFitsAt, SlopesRead};

use crate::multiples::{stretch, whole_times};
use fraction128::{Frac, is_less};
use rational::Extended;
use std::alloc::{AllocError, Global};
use upp_curve::affine_segment::{Line, Piece};
use upp_limits::OpFault;

/// A piece at a, after a gap from 0 on where a is after 0.
pub(crate) fn started(alloc: Global, a: Frac, first: Piece) -> Result<Vec<Piece>, AllocError>
    ensures { IfOk result (λ v. v.items ≡ from_zero a (first ∷ [])) }
{
    let mut pieces = Vec::new(alloc);
    if is_less(Frac::zero(), a) {
        pieces.push(Piece {
            x: Frac::zero(),
            at: Extended::Inf,
            line: None,
        })?;
    }
    pieces.push(first)?;
    Ok(pieces)
}

// One more stretch, after a gap from x on where there is one.
fn add_stretch(pieces: &mut Vec<Piece>, x: Frac, next: Piece) -> Result<(), AllocError>
    ensures { OnOk result (pieces.new.items ≡ pieces.old.items ++ after_gap x next.x (next ∷ [])) }
{
    if is_less(x, next.x) {
        pieces.push(Piece {
            x,
            at: Extended::Inf,
            line: None,
        })?;
    }
    pieces.push(next)?;
    Ok(())
}

// The m stretches after the first.
fn add_stretches(
    pieces: &mut Vec<Piece>,
    a: Frac,
    b: Frac,
    line: &Line,
    m: u64,
) -> Result<(), OpFault>
    requires few { m < 2 ^ 32 }
    requires apart { (i : ℕ) → 1 ≤ i → suc i ≤ suc m → nat_times i b ≤ℚ nat_times (suc i) a }
    ensures made { OnOk result (pieces.new.items ≡ pieces.old.items ++ stretches a b line.now 1 m []) }
    ensures unfit { IfErr result (IsUnfit (stretches a b line.now 1 m [])) }
{
    for i in 0..m {
        let Some(x) = whole_times(i + 1, b) else {
            return Err(OpFault::TooWide);
        };
        let Some(next) = stretch(a, line, i + 2) else {
            return Err(OpFault::TooWide);
        };
        add_stretch(pieces, x, next)?;
    }
    Ok(())
}

/// The pieces of the first stretch and of m more.
pub(crate) fn all_stretches(
    alloc: Global,
    a: Frac,
    b: Frac,
    line: &Line,
    m: u64,
) -> Result<Vec<Piece>, OpFault>
    requires few { m < 2 ^ 32 }
    requires apart { (i : ℕ) → 1 ≤ i → suc i ≤ suc m → nat_times i b ≤ℚ nat_times (suc i) a }
    ensures made { IfOk result (λ v. v.items ≡ all_stretches a b line.now m []) }
    ensures unfit { IfErr result (IsUnfit (all_stretches a b line.now m [])) }
{
    let Some(first) = stretch(a, line, 1) else {
        return Err(OpFault::TooWide);
    };
    let mut pieces = started(alloc, a, first)?;
    add_stretches(&mut pieces, a, b, line, m)?;
    Ok(pieces)
}

/// The pieces and one more.
pub(crate) fn with_last(pieces: Vec<Piece>, last: Piece) -> Result<Vec<Piece>, AllocError>
    ensures { IfOk result (λ v. v.items ≡ pieces.items ++ (last ∷ [])) }
{
    // Where a piece is pushed the check wants its types to be named.
    let _gap = Piece {
        x: last.x,
        at: Extended::Inf,
        line: None,
    };
    let mut more = pieces;
    more.push(last)?;
    Ok(more)
}

// Whether the slope of a line times x fits.
fn slope_fits(line: &Option<Line>, x: Frac) -> bool
    ensures { IsTrue result ↔ SlopeFitsAt x line.now }
{
    match line {
        None => true,
        Some(l) => Frac::mul(l.slope, x).is_ok(),
    }
}

/// Whether each slope times the start and the next start of its line fits.
pub(crate) fn slopes_read(pieces: &[Piece]) -> bool
    ensures { IsTrue result ↔ SlopesRead None pieces.now }
{
    let mut line: Option<Line> = None;
    for p in pieces {
        if !slope_fits(&line, p.x) {
            return false;
        }
        if !slope_fits(&p.line, p.x) {
            return false;
        }
        line = p.line;
    }
    true
}
