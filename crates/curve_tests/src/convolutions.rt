//! Convolutions of curves that are infinite but at points, worked out by hand.

ghost use Rattle.std.specs.Prelude.{◌≡◌, ◌<◌};

use crate::shapes::{curve, piece, ratio, repeating, repeats, value, whole};
use curve_conv::convolve;
use outcomes::Steps;
use rational::Extended;
use std::alloc::Global;
use std::marker::Brand;
use std::sync::ledger::{Blank, Ledger};
use std::test::Fail;
use upp_curve::{Curve, Tail, equal};
use upp_limits::OpFault;

// One value at a time, and none elsewhere.
fn point(alloc: Global, x: i128, v: i128) -> Result<Curve, OpFault> {
    let list = [
        piece(0, Extended::Inf, None),
        piece(x, Extended::Fin(whole(v)), None),
    ];
    curve(alloc, &list, Tail::Infinite { rank: whole(x) })
}

fn convolved<L: Ledger>(alloc: Global, blank: Blank, f: &Curve, g: &Curve) -> Result<Curve, OpFault>
    requires name { blank.name ≡ L.name }
    requires parts { blank.parts ≡ L.parts }
    requires one { 0 < blank.parts }
{
    let mut steps = Steps::<L>::new(blank);
    convolve(alloc, f, g, &mut steps)
}

// n at 2 n, and 2 n at 3 n; and of one point each one point.
#[test]
fn curves_of_points(rt: HostRuntime) -> Result<(), Fail> {
    let f = repeating(rt.alloc(), 0, None, 2, 1)?;
    let g = repeating(rt.alloc(), 0, None, 3, 2)?;
    let c = convolved::<Brand>(rt.alloc(), Blank::new(1), &f, &g)?;
    for (t, v) in [(0, 0), (2, 1), (3, 2), (5, 3)] {
        assert!(rt; value(&c, whole(t)) == Some(whole(v)), "at {t}");
    }
    assert!(rt; value(&c, whole(1)).is_none());
    assert!(rt; value(&c, ratio(11, 2)).is_none());
    assert!(rt; repeats(&c) == Some((whole(2), whole(2), whole(1))));
    let one = point(rt.alloc(), 1, 2)?;
    let other = point(rt.alloc(), 3, 4)?;
    let sum = point(rt.alloc(), 4, 6)?;
    let both = convolved::<Brand>(rt.alloc(), Blank::new(1), &one, &other)?;
    assert!(rt; equal(&both, &sum));
    Ok(())
}
