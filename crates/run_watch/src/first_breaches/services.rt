//! The first window in which a server works less than its curve.

ghost use Rattle.std.specs.Prelude.{◌<◌, ◌↔◌, length, IfOk, IsTrue};
ghost use Rattle.run_laws.specs.Lawful.{IsLawful};
ghost use Rattle.net_model.specs.NetRoutes.{routes_of};
ghost use Rattle.run_watch.specs.Seen.{AreFirsts};
ghost use Rattle.run_watch.specs.FirstOf.{IsBest, IsBestBefore};
ghost use Rattle.run_watch.specs.first_breaches.Sizes.{HaveSizes};
ghost use Rattle.run_watch.specs.first_breaches.Firsts.{IsOne, IsOfKinds, HasService, HaveServices};
ghost use Rattle.run_watch.specs.first_breaches.Kept.{IsTold, AreKept};

use crate::first_breaches::counts::{flow_count, server_count};
use crate::{Found, earlier, service_breach, time_if_any, watch};
use fraction128::Frac;
use net_cells::{server, server_of_hop};
use net_model::Network;
use run_laws::Run;
use std::alloc::{AllocError, Global};

/// The first server of each flow's path.
fn firsts_of(alloc: Global, net: &Network) -> Result<Vec<u32>, AllocError>
    ensures { IfOk result (λ v. AreFirsts (routes_of net.now) v.items) }
{
    let count = flow_count(net);
    let mut firsts = Vec::new(alloc);
    for number in 0..count {
        firsts.push(server_of_hop(net, number, 0))?;
    }
    Ok(firsts)
}

/// Whether a server is told as one that keeps its service curve.
fn is_told(kept: &[bool], number: u32) -> bool
    ensures { IsTrue result ↔ IsTold kept.now number }
{
    kept.get(number as usize).copied().unwrap_or(false)
}

/// The first window of one server in which it works less than its service curve: none at once where it is told as one
/// that keeps it, or where none ends before `until`. `firsts` has for each flow the first server of its path.
fn first_service_of(
    alloc: Global,
    net: &Network,
    run: &Run,
    kept: &[bool],
    firsts: &[u32],
    number: u32,
    until: &Option<Frac>,
) -> Result<Option<Found>, AllocError>
    requires lawful { IsLawful (routes_of net.now) run.now }
    requires sizes { HaveSizes net.now run.now }
    requires kept { AreKept net.now run.now kept.now }
    requires firsts { AreFirsts (routes_of net.now) firsts.now }
    requires in_range { number < length net.now.servers }
    ensures best { IfOk result (IsBestBefore until.now (IsOne net.now run.now 2 number) run.now) }
    ensures curve { IfOk result (λ _. HasService net.now number) }
{
    match server(net, number) {
        None => Ok(None),
        Some(found) => {
            found.service.keeps();
            if is_told(kept, number) {
                return Ok(None);
            }
            let seen = watch(alloc, &run.steps, firsts, number, run.end)?;
            service_breach(alloc, &seen, number, &found.service, until)
        }
    }
}

/// What is known to be the first of the sizes and arrivals, or the first window of all servers where that is before
/// it: of no server a window is looked for that ends later than what is known by then.
pub(crate) fn first_service(
    alloc: Global,
    net: &Network,
    run: &Run,
    kept: &[bool],
    known: Option<Found>,
) -> Result<Option<Found>, AllocError>
    requires lawful { IsLawful (routes_of net.now) run.now }
    requires sizes { HaveSizes net.now run.now }
    requires kept { AreKept net.now run.now kept.now }
    requires known { IsBest (IsOfKinds net.now run.now 2) run.now known }
    ensures best { IfOk result (IsBest (IsOfKinds net.now run.now 3) run.now) }
    ensures curves { IfOk result (λ _. HaveServices net.now) }
{
    let firsts = firsts_of(alloc, net)?;
    let count = server_count(net);
    let mut best = known;
    for number in 0..count {
        let until = time_if_any(&best);
        let next = first_service_of(alloc, net, run, kept, &firsts, number, &until)?;
        best = earlier(best, next);
    }
    Ok(best)
}
