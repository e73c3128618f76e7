//! What the flows break first: a packet that is longer than its flow allows, or two of a flow between which too many bits enter.

ghost use Rattle.std.specs.Prelude.{IfOk};
ghost use Rattle.run_laws.specs.Lawful.{IsLawful};
ghost use Rattle.net_model.specs.NetRoutes.{routes_of};
ghost use Rattle.run_watch.specs.FirstOf.{IsBest};
ghost use Rattle.run_watch.specs.first_breaches.Sizes.{HaveSizes};
ghost use Rattle.run_watch.specs.first_breaches.Firsts.{IsOne, IsOfKinds};

use crate::first_breaches::counts::flow_count;
use crate::{Found, arrival_breach, earlier, entries_of, size_breach};
use net_cells::live_flow;
use net_model::Network;
use run_laws::Run;
use std::alloc::{AllocError, Global};

/// What one flow breaks first of each kind.
#[derive(Clone, Copy)]
struct Firsts {
    /// The first packet that is longer than the flow allows.
    size: Option<Found>,
    /// The first pair of packets between which more bits enter than its arrival curve has.
    arrival: Option<Found>,
}

/// What one flow breaks first; nothing where it is not live.
fn breaches_of(alloc: Global, net: &Network, run: &Run, number: u32) -> Result<Firsts, AllocError>
    requires lawful { IsLawful (routes_of net.now) run.now }
    requires sizes { HaveSizes net.now run.now }
    ensures size { IfOk result (λ f. IsBest (IsOne net.now run.now 0 number) run.now f.size) }
    ensures arrival { IfOk result (λ f. IsBest (IsOne net.now run.now 1 number) run.now f.arrival) }
{
    match live_flow(net, number) {
        None => Ok(Firsts {
            size: None,
            arrival: None,
        }),
        Some(flow) => {
            flow.arrival.keeps();
            let packets = entries_of(alloc, &run.steps, number)?;
            let entered = packets.as_slice();
            let size = size_breach(entered, number, flow.packet);
            let arrival = arrival_breach(alloc, entered, number, &flow.arrival);
            Ok(Firsts { size, arrival })
        }
    }
}

/// What all flows break first: of those of one time sizes come before arrivals.
pub(crate) fn first_of_flows(
    alloc: Global,
    net: &Network,
    run: &Run,
) -> Result<Option<Found>, AllocError>
    requires lawful { IsLawful (routes_of net.now) run.now }
    requires sizes { HaveSizes net.now run.now }
    ensures { IfOk result (IsBest (IsOfKinds net.now run.now 2) run.now) }
{
    let count = flow_count(net);
    let mut size = None;
    let mut arrival = None;
    for number in 0..count {
        let next = breaches_of(alloc, net, run, number)?;
        size = earlier(size, next.size);
        arrival = earlier(arrival, next.arrival);
    }
    Ok(earlier(size, arrival))
}
