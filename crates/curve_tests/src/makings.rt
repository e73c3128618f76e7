//! The trait of calls can be met.

ghost use Rattle.curve_call.specs.Again.{IsAgain, again_determined};

use crate::shapes::bucket;
use curve_call::{Making, calls_in_turn, intact};
use std::test::Fail;
use upp_curve::{Curve, equal};
use upp_limits::OpFault;

// The curve again.
#[derive(Drop)]
struct Again {}

impl Making for Again {
    ghost answers = { IsAgain };

    ghost determined = { again_determined };

    fn call(&self, c: &Curve) -> Result<Curve, OpFault> {
        match c.copy() {
            Ok(d) => Ok(d),
            Err(_) => Err(OpFault::NoMemory),
        }
    }
}

#[test]
fn a_copy_is_the_curve(rt: HostRuntime) -> Result<(), Fail> {
    let c = bucket(rt.alloc(), 1, 1)?;
    let again = Again {};
    let d = intact(again.call(&c))?;
    calls_in_turn::<Again, Again>();
    assert!(rt; equal(&c, &d));
    Ok(())
}
