//! The lines at the head of the page of min_plus_algebra.

ghost use Rattle.std.specs.Prelude.{◌≡◌, ◌<◌};

use min_plus_algebra::{Ext, Extended, Frac, Steps, bucket, convolve, horizontal, rate_latency};
use std::alloc::Global;
use std::marker::Brand;
use std::sync::ledger::{Blank, Ledger};
use std::test::Fail;

// How long a packet of the flow takes at most over both ports, which are one of the lesser rate and of both latencies.
fn delay_over_two_ports<L: Ledger>(alloc: Global, blank: Blank) -> Result<Ext, Fail>
    requires name { blank.name ≡ L.name }
    requires parts { blank.parts ≡ L.parts }
    requires one { 0 < blank.parts }
{
    let mut steps = Steps::<L>::new(blank);
    let flow = bucket(alloc, Frac::from_whole(12000), Frac::from_whole(10))?;
    let first = rate_latency(alloc, Frac::from_whole(100), Frac::from_whole(10))?;
    let second = rate_latency(alloc, Frac::from_whole(50), Frac::from_whole(20))?;
    let path = convolve(alloc, &first, &second, &mut steps)?;
    if !flow.is_rising() || !path.is_rising() || !path.is_finite() {
        return Err(Fail::from("a curve that falls, or is infinite"));
    }
    let delay = horizontal(&flow, &path, &mut steps)?;
    Ok(delay)
}

#[test]
fn a_flow_takes_270_over_two_ports(rt: HostRuntime) -> Result<(), Fail> {
    let delay = delay_over_two_ports::<Brand>(rt.alloc(), Blank::new(1))?;
    match delay {
        Extended::Fin(time) => assert_eq!(rt; time, Frac::from_whole(270)),
        Extended::Inf => assert!(rt; false),
    }
    Ok(())
}
