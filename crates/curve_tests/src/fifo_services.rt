//! Services worked out by hand, by the wait that the horizontal deviation of the two curves is.

ghost use Rattle.std.specs.Prelude.{◌≡◌, ◌<◌, pos, IsTrue};
ghost use Rattle.rational.specs.Rational.{int};
ghost use Rattle.rational.specs.Extended.{◌≤ₑ◌};
ghost use Rattle.rational.specs.declared.Extended.TheVariants.{Fin};
ghost use Rattle.upp_curve.specs.Curve.{value_at};

use crate::services::late;
use crate::shapes::{bucket, ratio, repeating, value, whole};
use curve_deviation::horizontal;
use fraction128::{Ext, Frac};
use outcomes::Steps;
use rational::Extended;
use residuals::fifo::fifo_service;
use std::alloc::Global;
use std::cmp::Ordering;
use std::marker::Brand;
use std::sync::ledger::{Blank, Ledger};
use std::test::Fail;
use upp_curve::{Curve, equal};
use upp_limits::OpFault;

// Whether that is a number from 0 on.
fn is_high(v: Ext) -> bool
    ensures { IsTrue result → Fin (int (pos 0)) ≤ₑ v }
{
    match v {
        Extended::Fin(x) => match x.cmp(&Frac::zero()) {
            Ordering::Less => false,
            _ => true,
        },
        Extended::Inf => false,
    }
}

// Whether the curve is a number from 0 on at the start.
fn starts_high(c: &Curve) -> bool
    ensures { IsTrue result → Fin (int (pos 0)) ≤ₑ value_at c.now (int (pos 0)) }
{
    match c.value_at(Frac::zero()) {
        Ok(v) => is_high(v),
        Err(_) => false,
    }
}

// Whether the wait is infinite, and what is left after it.
fn service<L: Ledger>(
    alloc: Global,
    blank: Blank,
    beta: &Curve,
    cross: &Curve,
) -> Result<(bool, Curve), OpFault>
    requires name { blank.name ≡ L.name }
    requires parts { blank.parts ≡ L.parts }
    requires one { 0 < blank.parts }
{
    let mut steps = Steps::<L>::new(blank);
    if !beta.is_rising() {
        return Err(OpFault::TooMany);
    }
    if !beta.is_finite() {
        return Err(OpFault::TooMany);
    }
    if !cross.is_rising() {
        return Err(OpFault::TooMany);
    }
    if !starts_high(beta) {
        return Err(OpFault::TooMany);
    }
    let theta = horizontal(cross, beta, &mut steps)?;
    let left = fifo_service(alloc, beta, cross, theta, &mut steps)?;
    Ok((theta.is_infinite(), left))
}

// Beside a slower flow a rate after the wait, beside a faster one nothing; and beside a slower one where service comes in steps.
#[test]
fn what_another_flow_leaves(rt: HostRuntime) -> Result<(), Fail> {
    let beta = late(rt.alloc(), whole(100), whole(10))?;
    let cross = bucket(rt.alloc(), 6000, 5)?;
    let (waits, left) = service::<Brand>(rt.alloc(), Blank::new(1), &beta, &cross)?;
    assert!(rt; !waits, "the wait ends");
    let wanted = late(rt.alloc(), whole(95), whole(70))?;
    assert!(rt; equal(&left, &wanted));
    let faster = bucket(rt.alloc(), 1, 101)?;
    let (endless, nothing) = service::<Brand>(rt.alloc(), Blank::new(1), &beta, &faster)?;
    let zero = bucket(rt.alloc(), 0, 0)?;
    assert!(rt; endless, "the wait is infinite");
    assert!(rt; equal(&nothing, &zero));
    // A step of 5 at each whole time from 1 on.
    let steps = repeating(rt.alloc(), 0, Some((0, 0)), 1, 5)?;
    let slower = bucket(rt.alloc(), 1, 1)?;
    let (_, between) = service::<Brand>(rt.alloc(), Blank::new(1), &steps, &slower)?;
    for (n, v) in [(2, 0), (3, 3), (4, 7)] {
        let found = value(&between, ratio(n, 2));
        assert!(rt; found == Some(whole(v)), "at {n} halves");
    }
    Ok(())
}
