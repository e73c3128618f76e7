//! Pieces cut into elements.

ghost use Rattle.std.specs.Prelude.{◌≡◌, ◌+◌, ◌<◌, ◌++◌, length, drop, OnOk, IfOk};
ghost use Rattle.element_envelope.specs.PieceElements.{point_of, segment_of, next_start, elements_of};

use fraction128::Ext;
use rational::Extended;
use std::alloc::{AllocError, Global};
use upp_curve::affine_segment::{Element, Piece};

// Where the piece after the i-th starts; `end` where there is none.
fn next_start(pieces: &[Piece], i: usize, end: &Ext) -> Ext
    requires { i < length pieces.now }
    ensures { result ≡ next_start (drop (i + 1) pieces.now) end.now }
{
    match pieces.get(i + 1) {
        Some(p) => Extended::Fin(p.x),
        None => *end,
    }
}

// Appends the elements of a piece that ends at `next`.
fn push_elements(elements: &mut Vec<Element>, p: &Piece, next: Ext) -> Result<(), AllocError>
    ensures { OnOk result
        (elements.new.items ≡ elements.old.items ++ (point_of p.now.x p.now.at ++ segment_of p.now.x next p.now.line)) }
{
    if let Extended::Fin(v) = p.at {
        elements.push(Element::Point { x: p.x, v })?;
    }
    if let Some(line) = p.line {
        elements.push(Element::Open {
            from: p.x,
            to: next,
            line,
        })?;
    }
    Ok(())
}

/// The elements of pieces in order: of each the point at its start, where its value there is a number, and its line up
/// to the next start; the last up to `end`.
pub fn cut(alloc: Global, pieces: &[Piece], end: Ext) -> Result<Vec<Element>, AllocError>
    ensures { IfOk result (λ v. v.items ≡ elements_of pieces.now end) }
{
    let mut elements = Vec::new(alloc);
    for (i, p) in pieces.iter().enumerate() {
        let next = next_start(pieces, i, &end);
        push_elements(&mut elements, p, next)?;
    }
    Ok(elements)
}
