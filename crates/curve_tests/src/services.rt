//! What a rate after a latency leaves, which is another one, worked out by hand.

ghost use Rattle.std.specs.Prelude.{◌≡◌, ◌<◌};

use crate::shapes::{bucket, ratio, whole};
use curve_library::rate_latency;
use fraction128::Frac;
use outcomes::Steps;
use residuals::drr::drr_service;
use residuals::packetiser::packetised;
use residuals::priority::priority_service;
use std::alloc::Global;
use std::marker::Brand;
use std::sync::ledger::{Blank, Ledger};
use std::test::Fail;
use upp_curve::{Curve, equal};
use upp_limits::OpFault;

/// A rate after a latency. Refused with TooMany where there is none.
pub(crate) fn late(alloc: Global, rate: Frac, latency: Frac) -> Result<Curve, OpFault> {
    match rate_latency(alloc, rate, latency) {
        Ok(c) => Ok(c),
        Err(_) => Err(OpFault::TooMany),
    }
}

#[derive(Debug, Clone, Copy)]
enum To {
    // Packets of 12000, whole.
    Packets,
    // The first of two queues, of quanta and longest packets 12000 and 6000.
    Deficits,
    // A queue below flows of this burst and rate, and above a packet of so many bits.
    Priority(i128, i128, u32),
}

fn left<L: Ledger>(alloc: Global, blank: Blank, beta: &Curve, to: To) -> Result<Curve, OpFault>
    requires name { blank.name ≡ L.name }
    requires parts { blank.parts ≡ L.parts }
    requires one { 0 < blank.parts }
{
    let mut steps = Steps::<L>::new(blank);
    if !beta.is_finite() {
        return Err(OpFault::TooMany);
    }
    match to {
        To::Packets => packetised(alloc, beta, whole(12000), &mut steps),
        To::Deficits => drr_service(alloc, beta, &[12000, 6000], &[12000, 6000], 0, &mut steps),
        To::Priority(burst, rate, lower) => {
            let higher = bucket(alloc, burst, rate)?;
            priority_service(alloc, beta, &higher, lower, &mut steps)
        }
    }
}

// A packet delays the packets, and the first queue; a bucket goes before the last one.
#[test]
fn what_servers_leave(rt: HostRuntime) -> Result<(), Fail> {
    let alloc = rt.alloc();
    // The rate and the latency of the service, and those of what is left.
    for (rate, latency, to, slower, later) in [
        (95, 70, To::Packets, whole(95), ratio(3730, 19)),
        (100, 10, To::Deficits, ratio(200, 3), whole(190)),
        (100, 10, To::Priority(0, 0, 12000), whole(100), whole(130)),
        (
            100,
            10,
            To::Priority(6000, 5, 0),
            whole(95),
            ratio(1400, 19),
        ),
    ] {
        let beta = late(alloc, whole(rate), whole(latency))?;
        let found = left::<Brand>(alloc, Blank::new(1), &beta, to)?;
        let wanted = late(alloc, slower, later)?;
        assert!(rt; equal(&found, &wanted), "{to:?}");
    }
    Ok(())
}
