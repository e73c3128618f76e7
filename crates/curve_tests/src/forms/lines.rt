//! Values worked out by hand.

use crate::shapes::{line, ratio, whole};
use fraction128::{Ext, Frac, Op, Wide};
use rational::Extended;
use upp_curve::affine_segment::{Line, cross, element_min, is_before, value};

const LARGEST: i128 = i128::MAX;

// The step that is too wide.
fn wide(op: Op, a: i128, b: i128) -> Wide {
    Wide {
        op,
        a: whole(a),
        b: whole(b),
    }
}

#[test]
fn values_and_crossings(rt: HostRuntime) {
    for (l, t, v) in [
        (line(3, -2), ratio(1, 2), Ok(whole(2))),
        (line(0, LARGEST), whole(1), Ok(whole(LARGEST))),
        (line(0, LARGEST), whole(2), Err(wide(Op::Mul, LARGEST, 2))),
        (line(LARGEST, 1), whole(1), Err(wide(Op::Add, LARGEST, 1))),
    ] {
        assert!(rt; value(&l, t) == v, "{l:?} at {t:?}");
    }
    for (l, m, t) in [
        (line(5, 1), line(3, 2), Ok(Some(whole(2)))),
        (line(3, 2), line(5, 1), Ok(Some(whole(2)))),
        (line(0, 3), line(1, 1), Ok(Some(ratio(1, 2)))),
        (line(-LARGEST, 2), line(LARGEST, 2), Ok(None)),
        (
            line(-LARGEST, 1),
            line(LARGEST, 2),
            Err(wide(Op::Sub, LARGEST, -LARGEST)),
        ),
    ] {
        assert!(rt; cross(&l, &m) == t, "{l:?} and {m:?}");
    }
}

// The slopes before and after the change, and where it is.
fn lower(a: &Line, b: &Line, from: i128, to: Ext) -> Option<(Frac, Option<Frac>, Frac)> {
    let start = whole(from);
    if !is_before(start, &to) {
        return None;
    }
    match element_min(a, b, start, to) {
        Ok(cut) => Some((cut.low.slope, cut.at, cut.after.slope)),
        Err(_) => None,
    }
}

#[test]
fn lower_lines(rt: HostRuntime) {
    let (a, b) = (line(5, 1), line(3, 2));
    let (one, two) = (whole(1), whole(2));
    let cut = Some((two, Some(two), one));
    assert!(rt; lower(&a, &b, 0, Extended::Inf) == cut);
    assert!(rt; lower(&b, &a, 0, Extended::Fin(whole(3))) == cut);
    assert!(rt; lower(&a, &b, 0, Extended::Fin(two)) == Some((two, None, two)));
    assert!(rt; lower(&a, &b, 2, Extended::Inf) == Some((one, None, one)));
    assert!(rt; lower(&line(1, 2), &line(0, 2), 0, Extended::Inf) == Some((two, None, two)));
}
