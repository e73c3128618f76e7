//! Which curves are subadditive, worked out by hand.

ghost use Rattle.std.specs.Prelude.{◌≡◌, ◌<◌};

use crate::services::late;
use crate::shapes::{bucket, repeating};
use fraction128::Frac;
use outcomes::Steps;
use std::alloc::Global;
use std::marker::Brand;
use std::sync::ledger::{Blank, Ledger};
use std::test::Fail;
use subadd_closure::is_subadditive;
use upp_curve::Curve;
use upp_limits::OpFault;

fn told<L: Ledger>(alloc: Global, blank: Blank, f: &Curve) -> Result<bool, OpFault>
    requires name { blank.name ≡ L.name }
    requires parts { blank.parts ≡ L.parts }
    requires one { 0 < blank.parts }
{
    let mut steps = Steps::<L>::new(blank);
    is_subadditive(alloc, f, &mut steps)
}

// A bucket and a stair are; a latency is not, nor a stair that waits a whole period for its first step.
#[test]
fn which_curves_are_subadditive(rt: HostRuntime) -> Result<(), Fail> {
    let f = bucket(rt.alloc(), 3, 2)?;
    let g = late(rt.alloc(), Frac::one(), Frac::one())?;
    assert!(rt; told::<Brand>(rt.alloc(), Blank::new(1), &f)?);
    assert!(rt; !told::<Brand>(rt.alloc(), Blank::new(1), &g)?);
    let stair = repeating(rt.alloc(), 1, Some((1, 0)), 2, 1)?;
    let late_stair = repeating(rt.alloc(), 0, Some((0, 0)), 2, 1)?;
    assert!(rt; told::<Brand>(rt.alloc(), Blank::new(1), &stair)?);
    assert!(rt; !told::<Brand>(rt.alloc(), Blank::new(1), &late_stair)?);
    Ok(())
}
