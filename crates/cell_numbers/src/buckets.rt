//! What may come over a link.

ghost use Rattle.std.specs.Prelude.{◌≡◌};
ghost use Rattle.rational.specs.Rational.{◌≤ℚ◌};
ghost use Rattle.min_plus.specs.Functions.{zero_q};
ghost use Rattle.upp_curve.specs.Kinds.{bucket};
ghost use Rattle.run_laws.specs.Cards.{whole};
ghost use Rattle.curve_call.specs.Again.{IsAgain};

use curve_library::{CurveFault, bucket};
use fraction128::Frac;
use run_laws::whole;
use std::alloc::Global;
use upp_curve::Curve;
use upp_limits::OpFault;

// The fault of a bucket that is wanting memory.
fn wanting(fault: CurveFault) -> OpFault
    requires { fault ≡ CurveFault.NoMemory }
    ensures { result ≡ OpFault.NoMemory }
{
    match fault {
        CurveFault::NoMemory => OpFault::NoMemory,
        _ => unreachable!(),
    }
}

/// What may come over a link of a rate from 0 on, by the bits of the longest packet: no such bucket is refused, so that only
/// memory can be wanting.
pub fn link_bucket(alloc: Global, bits: u32, rate: Frac) -> Result<Curve, OpFault>
    requires { zero_q ≤ℚ rate }
    ensures { IsAgain (bucket (whole bits) rate) result }
{
    match bucket(alloc, whole(bits), rate) {
        Ok(made) => Ok(made),
        Err(fault) => Err(wanting(fault)),
    }
}
