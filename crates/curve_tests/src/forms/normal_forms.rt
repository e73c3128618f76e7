//! Normal forms and pieces below a time, worked out by hand.

use crate::forms::own_limits::stair;
use crate::shapes::{curve, fraction_piece, line_piece, piece, ratio, repeats, whole};
use fraction128::Frac;
use rational::Extended;
use std::alloc::{AllocError, Global};
use std::process::Abort;
use std::test::Fail;
use upp_curve::affine_segment::Piece;
use upp_curve::{Tail, equal};
use upp_normal::pieces_to;

// From each time on a value.
fn levels(alloc: Global, rows: &[(i128, i128)]) -> Result<Vec<Piece>, AllocError> {
    rows.iter()
        .map(|row| line_piece(row.0, row.1, row.1, 0))
        .collect(alloc)
}

fn periodic(parts: (i128, i128, i128)) -> Tail {
    Tail::Periodic {
        rank: whole(parts.0),
        period: whole(parts.1),
        rise: whole(parts.2),
    }
}

// Infinite curves are one.
fn expect_one_infinite(rt: &impl Abort, alloc: Global) -> Result<(), Fail> {
    let rank = Frac::zero();
    let late = Tail::Infinite { rank };
    let zero = Frac::zero();
    let steep = fraction_piece(zero, zero, zero, ratio(1, 1 << 61));
    let with_line = curve(alloc, &[steep], late)?;
    let without = curve(alloc, &[piece(0, Extended::Fin(zero), None)], late)?;
    assert!(rt; equal(&with_line, &without));
    let never = [piece(0, Extended::Inf, None)];
    let nowhere = curve(alloc, &never, late)?;
    assert!(rt; !equal(&nowhere, &without));
    for tail in [Tail::Affine { rank }, periodic((0, 1, 7))] {
        assert!(rt; equal(&nowhere, &curve(alloc, &never, tail)?), "{tail:?}");
    }
    Ok(())
}

#[test]
fn normal_forms(rt: HostRuntime) -> Result<(), Fail> {
    expect_one_infinite(&rt, rt.alloc())?;
    for (rows, given, kept) in [
        ([(0, 1), (2, 2)].as_slice(), (0, 4, 2), (0, 2, 1)),
        ([(0, 1), (1, 2), (2, 3)].as_slice(), (0, 3, 3), (0, 1, 1)),
        ([(0, 1), (2, 2), (4, 3)].as_slice(), (3, 2, 1), (0, 2, 1)),
        ([(0, 5), (1, 1), (3, 2)].as_slice(), (2, 2, 1), (1, 2, 1)),
    ] {
        let c = curve(rt.alloc(), &levels(rt.alloc(), rows)?, periodic(given))?;
        let wanted = (whole(kept.0), whole(kept.1), whole(kept.2));
        assert!(rt; repeats(&c) == Some(wanted), "of {given:?}");
        let ranks = if kept.0 == 0 { 1 } else { 2 };
        assert!(rt; c.piece_count() == ranks, "of {given:?}");
    }
    Ok(())
}

#[test]
fn pieces_below_a_time(rt: HostRuntime) -> Result<(), Fail> {
    let c = stair(rt.alloc())?;
    for (end, starts) in [
        (5, [0, 2, 4].as_slice()),
        (4, [0, 2].as_slice()),
        (0, [].as_slice()),
        (-1, [].as_slice()),
    ] {
        let pieces = pieces_to(&c, whole(end))?;
        assert!(rt; pieces.len() == starts.len(), "below {end}");
        for (p, x) in pieces.iter().zip(starts) {
            assert!(rt; p.x == whole(*x), "below {end}");
            assert!(rt; p.at.finite() == Some(whole(1 + *x / 2)), "at {x}");
        }
    }
    assert!(rt; equal(&c, &c.copy()?));
    Ok(())
}
