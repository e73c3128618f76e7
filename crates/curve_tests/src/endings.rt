//! Operators that take a curve that ends: the calculator has no such curve. What the same operators make of the saw alone is a script of it
//! (tests/curves/a_saw).
//!
//! The saw is 2 + n at 2 n and n + s at 2 n + s, for s between 0 and 2: at 0, 1, .. it is 2, 1, 3, 2, 4, 3.
//! The ramp is 1 + t up to 3, and infinite after it.

ghost use Rattle.std.specs.Prelude.{◌≡◌, ◌<◌};

use crate::shapes::{curve, piece, repeating, value, whole};
use fraction128::Frac;
use outcomes::Steps;
use plain_operators::pointwise::{max, min, pos_diff, scale, shift, sum};
use rational::Extended;
use std::alloc::Global;
use std::marker::Brand;
use std::sync::ledger::{Blank, Ledger};
use std::test::Fail;
use upp_curve::{Curve, Tail};
use upp_limits::OpFault;

fn ramp(alloc: Global) -> Result<Curve, OpFault> {
    let first = piece(0, Extended::Fin(Frac::one()), Some((1, 1)));
    curve(alloc, &[first], Tail::Infinite { rank: whole(3) })
}

// 5 + 2 n at 2 n + 1, and infinite elsewhere.
fn odd_dots(alloc: Global) -> Result<Curve, OpFault> {
    let list = [
        piece(0, Extended::Inf, None),
        piece(1, Extended::Fin(whole(5)), None),
    ];
    let tail = Tail::Periodic {
        rank: Frac::zero(),
        period: whole(2),
        rise: whole(2),
    };
    curve(alloc, &list, tail)
}

// What f has above g, for finite f.
fn excess<L: Ledger>(
    alloc: Global,
    f: &Curve,
    g: &Curve,
    steps: &mut Steps<L>,
) -> Result<Curve, OpFault> {
    if f.is_finite() {
        pos_diff(alloc, f, g, steps)
    } else {
        Err(OpFault::TooMany)
    }
}

fn later<L: Ledger>(alloc: Global, f: &Curve, steps: &mut Steps<L>) -> Result<Curve, OpFault> {
    shift(alloc, f, Extended::Fin(Frac::one()), steps)
}

// An operator of both curves, or of the one that is named.
#[derive(Debug, Clone, Copy)]
enum Of {
    Sum,
    Min,
    Max,
    PosDiff,
    ScaleSecond,
    ShiftSecond,
    ShiftFirstForEver,
}

fn made<L: Ledger>(
    alloc: Global,
    blank: Blank,
    of: Of,
    f: &Curve,
    g: &Curve,
) -> Result<Curve, OpFault>
    requires name { blank.name ≡ L.name }
    requires parts { blank.parts ≡ L.parts }
    requires one { 0 < blank.parts }
{
    let mut steps = Steps::<L>::new(blank);
    match of {
        Of::Sum => sum(alloc, f, g, &mut steps),
        Of::Min => min(alloc, f, g, &mut steps),
        Of::Max => max(alloc, f, g, &mut steps),
        Of::PosDiff => excess(alloc, f, g, &mut steps),
        Of::ScaleSecond => scale(alloc, g, whole(3), &mut steps),
        Of::ShiftSecond => later(alloc, g, &mut steps),
        Of::ShiftFirstForEver => shift(alloc, f, Extended::Inf, &mut steps),
    }
}

// Of curves that are never finite together, the lower one is refused: the slower one, n at 2 n, is always above at 2 n + 1.
#[test]
fn operators_of_a_curve_that_ends(rt: HostRuntime) -> Result<(), Fail> {
    let saw = repeating(rt.alloc(), 2, Some((0, 1)), 2, 1)?;
    let ramp = ramp(rt.alloc())?;
    // At 0, 1, .., where -1 stands for infinity.
    for (of, row) in [
        (Of::Sum, [3, 3, 6, 6, -1, -1]),
        (Of::Min, [1, 1, 3, 2, 4, 3]),
        (Of::Max, [2, 2, 3, 4, -1, -1]),
        (Of::PosDiff, [1, 0, 0, 0, 0, 0]),
        (Of::ScaleSecond, [3, 6, 9, 12, -1, -1]),
        (Of::ShiftSecond, [2, 3, 4, -1, -1, -1]),
        (Of::ShiftFirstForEver, [-1, -1, -1, -1, -1, -1]),
    ] {
        let c = made::<Brand>(rt.alloc(), Blank::new(1), of, &saw, &ramp)?;
        for (t, v) in (0i128..).zip(row) {
            let found = value(&c, whole(t)).unwrap_or(whole(-1));
            assert!(rt; found == whole(v), "{of:?} at {t}");
        }
    }
    // n and 2 n - 5 at 2 n, which meet at 10.
    let dots = repeating(rt.alloc(), 0, None, 2, 1)?;
    let steep = repeating(rt.alloc(), -5, None, 2, 2)?;
    let lower = made::<Brand>(rt.alloc(), Blank::new(1), Of::Min, &dots, &steep)?;
    for (t, v) in [(0, -5), (8, 3), (10, 5), (12, 6)] {
        assert!(rt; value(&lower, whole(t)) == Some(whole(v)), "at {t}");
    }
    let odd = odd_dots(rt.alloc())?;
    let never_together = made::<Brand>(rt.alloc(), Blank::new(1), Of::Min, &dots, &odd);
    assert!(rt; matches!(&never_together, Err(OpFault::TooWide)));
    Ok(())
}
