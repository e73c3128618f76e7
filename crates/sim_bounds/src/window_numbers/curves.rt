//! The numbers of all curves of a network up to the end of a window.

ghost use Rattle.std.specs.Prelude.{[], ◌∷◌, map, IfSome, IsSome};
ghost use Rattle.upp_limits.specs.Limits.{Numbers, Sizes, joined};
ghost use Rattle.upp_limits.specs.Sized.{HeldBy};
ghost use Rattle.upp_limits.specs.Gathered.{Gathers};
ghost use Rattle.net_model.specs.Networks.{NetServer};
ghost use Rattle.net_model.specs.Views.{servers_of, flows_of};
ghost use Rattle.sim_bounds.specs.Gauge.{numbers_of_curves, arrivals_of};

use crate::window_numbers::curve_ends::with_curve;
use fraction128::Frac;
use net_model::{Flow, Server};
use upp_limits::gathered::Gathered;

/// The numbers of the service curves more.
pub fn with_services(g: Gathered, servers: &[Server], end: Frac) -> Option<Gathered>
    ensures value { let curves = map (λ (s : NetServer). s.service) (servers_of servers.now) in
        IfSome result (λ r. (n : Numbers) → Gathers g n → Gathers r (joined n (numbers_of_curves end curves))) }
    ensures fits { let curves = map (λ (s : NetServer). s.service) (servers_of servers.now) in
        (z : Sizes) → HeldBy z end (numbers_of_curves end curves) → IsSome result }
{
    let mut found = g;
    for server in servers {
        match with_curve(found, &server.service, end) {
            Some(more) => found = more,
            None => return None,
        }
    }
    Some(found)
}

/// The numbers of the arrival curve of a flow more, where the flow is there.
fn with_flow(g: Gathered, flow: &Option<Flow>, end: Frac) -> Option<Gathered>
    ensures value { let curves = arrivals_of (flows_of (flow.now ∷ [])) in
        IfSome result (λ r. (n : Numbers) → Gathers g n → Gathers r (joined n (numbers_of_curves end curves))) }
    ensures fits { let curves = arrivals_of (flows_of (flow.now ∷ [])) in
        (z : Sizes) → HeldBy z end (numbers_of_curves end curves) → IsSome result }
{
    match flow {
        Some(there) => with_curve(g, &there.arrival, end),
        None => Some(g),
    }
}

/// The numbers of the arrival curves more.
pub fn with_arrivals(g: Gathered, flows: &[Option<Flow>], end: Frac) -> Option<Gathered>
    ensures value { let curves = arrivals_of (flows_of flows.now) in
        IfSome result (λ r. (n : Numbers) → Gathers g n → Gathers r (joined n (numbers_of_curves end curves))) }
    ensures fits { let curves = arrivals_of (flows_of flows.now) in
        (z : Sizes) → HeldBy z end (numbers_of_curves end curves) → IsSome result }
{
    let mut found = g;
    for flow in flows {
        match with_flow(found, flow, end) {
            Some(more) => found = more,
            None => return None,
        }
    }
    Some(found)
}
