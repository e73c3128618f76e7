//! A gauge and tallies, worked out by hand.

use crate::shapes::{curve, fraction_piece, line_piece, ratio, repeating, whole};
use fraction128::Frac;
use std::alloc::Global;
use std::test::Fail;
use upp_curve::{Curve, Tail};
use upp_limits::{OpFault, OpKind, gauge, tally};

// 1/2 at 0 and 1 + 5/4 t after it; each 3/2 later it is 5/7 higher.
pub(crate) fn teeth(alloc: Global) -> Result<Curve, OpFault> {
    let first = fraction_piece(Frac::zero(), ratio(1, 2), whole(1), ratio(5, 4));
    let tail = Tail::Periodic {
        rank: Frac::zero(),
        period: ratio(3, 2),
        rise: ratio(5, 7),
    };
    curve(alloc, &[first], tail)
}

// 1, and each 2 later 1 higher.
pub(crate) fn stair(alloc: Global) -> Result<Curve, OpFault> {
    repeating(alloc, 1, Some((1, 0)), 2, 1)
}

// Below 3 the pieces of `teeth` start at 0 and 3/2. The times 3, 0 and 3/2 have the denominator 2. The values 1/2 and
// 17/14 at starts, 1 and 12/7 after them and the rise 5/7 have the denominator 14; with 23/8 and 201/56 just before the
// next starts it is 56. The slope 5/4 has the denominator 4, and twice its size is at most 3. No value is above 3 times
// 3. So the gauge is 64 * 9 * 3 * 56 * 2 * 4 * 4. `teeth` start a piece each 3/2 and `stair` each 2, both from 0 on.
#[test]
fn gauge_and_tallies(rt: HostRuntime) -> Result<(), Fail> {
    let f = teeth(rt.alloc())?;
    let g = stair(rt.alloc())?;
    assert!(rt; gauge(OpKind::Itself, &f, &f, Some(whole(3))) == Some(3_096_576));
    assert!(rt; gauge(OpKind::Itself, &f, &f, None).is_none());
    for (op, end, count) in [
        (OpKind::Sum, whole(6), 4 + 3),
        (OpKind::Min, whole(12), 8 + 6),
        (OpKind::PosMinus(whole(1)), whole(3), 2 + 1),
        (OpKind::RunSup, whole(3), 2),
        (OpKind::Convolve, whole(12), 8 * 6),
        (OpKind::Itself, ratio(3, 2), 1),
    ] {
        assert!(rt; tally(op, &f, &g, Some(end)) == count, "{op:?}");
    }
    Ok(())
}

// A period and a window of large denominators.
#[test]
fn tallies_are_exact(rt: HostRuntime) -> Result<(), Fail> {
    let r = (1 << 100) + 7;
    let p = (1 << 100) - 3;
    let tail = Tail::Periodic {
        rank: Frac::zero(),
        period: ratio(1, r),
        rise: Frac::one(),
    };
    let c = curve(rt.alloc(), &[line_piece(0, 0, 0, 0)], tail)?;
    for (window, count) in [
        (Frac::new(p + 1, p).ok(), u64::MAX),
        (Some(ratio(1, p)), 2),
        (Some(ratio(1, r)), 1),
        (None, 0),
    ] {
        assert!(rt;
            tally(OpKind::Itself, &c, &c, window) == count,
            "{window:?}"
        );
    }
    Ok(())
}
