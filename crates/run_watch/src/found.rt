//! The first of some breaches.

ghost use Rattle.std.specs.Prelude.{◌≡◌, ◌≤◌, ◌^◌, List, length, IfOk};
ghost use Rattle.upp_curve.specs.Curve.{value_at};
ghost use Rattle.run_laws.specs.Cards.{ServerStep};
ghost use Rattle.run_laws.specs.Runs.{SpecRun};
ghost use Rattle.run_laws.specs.Servers as servers;
ghost use Rattle.flow_watch.specs.watch_laws.Entries.{entries};
ghost use Rattle.flow_watch.specs.watch_laws.Laws.{MayServe};
ghost use Rattle.flow_watch.specs.Flows.{FlowReads};
ghost use Rattle.run_watch.specs.Held.{IsHeld, IsSightOf};
ghost use Rattle.run_watch.specs.FirstOf.{earlier, time_if_any, IsBest, IsBestBefore, IsLongOn, IsCrowdOn, IsIdleOn, EnterInOrder};

use crate::service::first_idle;
use crate::watched::Watched;
use flow_watch::watch_laws::Entering;
use flow_watch::{first_crowded, first_too_long};
use fraction128::{Frac, is_less};
use net_model::Breach;
use std::alloc::{AllocError, Global};
use upp_curve::Curve;

/// A breach, with its time.
#[derive(Clone, Copy)]
pub struct Found {
    pub time: Frac,
    pub breach: Breach,
}

/// The earlier of two; the first where their times are one.
pub fn earlier(best: Option<Found>, next: Option<Found>) -> Option<Found>
    ensures { result ≡ earlier best next }
{
    match best {
        None => next,
        Some(f) => match next {
            None => Some(f),
            Some(g) => {
                if is_less(g.time, f.time) {
                    Some(g)
                } else {
                    Some(f)
                }
            }
        },
    }
}

/// The time of a breach, if there is one.
pub fn time_if_any(found: &Option<Found>) -> Option<Frac>
    ensures { result ≡ time_if_any found.now }
{
    match found {
        None => None,
        Some(f) => Some(f.time),
    }
}

/// The first packet of a flow that is longer than it allows.
pub fn size_breach(packets: &[Entering], flow: u32, longest: u32) -> Option<Found>
    requires { length packets.now ≤ 2 ^ 32 }
    ensures { (run : SpecRun) → packets.now ≡ entries flow run.steps → EnterInOrder packets.now
        → IsBest (IsLongOn run flow longest) run result }
{
    match first_too_long(packets, longest) {
        None => None,
        Some(k) => {
            let entering = packets[k];
            Some(Found {
                time: entering.time,
                breach: Breach::Size {
                    flow,
                    packet: k as u32,
                },
            })
        }
    }
}

/// The first pair of packets of a flow between which more bits enter than a curve has.
pub fn arrival_breach(
    alloc: Global,
    packets: &[Entering],
    flow: u32,
    arrival: &Curve,
) -> Option<Found>
    requires few { length packets.now ≤ 2 ^ 32 }
    requires reads { FlowReads arrival.now packets.now }
    ensures { (run : SpecRun) → packets.now ≡ entries flow run.steps → EnterInOrder packets.now
        → IsBest (IsCrowdOn run flow (value_at arrival.now)) run result }
{
    match first_crowded(alloc, packets, arrival) {
        None => None,
        Some((first, last)) => {
            let entering = packets[last];
            Some(Found {
                time: entering.time,
                breach: Breach::Arrival {
                    flow,
                    first: first as u32,
                    last: last as u32,
                },
            })
        }
    }
}

/// The first window in which a server works less than its curve; none, where none ends before `until`.
pub fn service_breach(
    alloc: Global,
    w: &Watched,
    server: u32,
    curve: &Curve,
    until: &Option<Frac>,
) -> Result<Option<Found>, AllocError>
    requires { IsHeld w.now curve.now }
    ensures { (run : SpecRun) (s : servers.Server) (V : List ServerStep) → IsSightOf s w.now.end V w.now
        → MayServe curve.now
        → IfOk result (IsBestBefore until.now (IsIdleOn w.now.end V server curve.now) run) }
{
    match first_idle(alloc, w, curve, until)? {
        None => Ok(None),
        Some(window) => {
            let (start, end) = window;
            Ok(Some(Found {
                time: end,
                breach: Breach::Service { server, start, end },
            }))
        }
    }
}
