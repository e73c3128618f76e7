//! The first law that a recorded run breaks.

ghost use Rattle.std.specs.Prelude.{◌≡◌, ◌<◌, ◌-◌, ◌^◌, [], IfOk, MatchOption, length};
ghost use Rattle.run_laws.specs.Lawful.{IsLawful};
ghost use Rattle.net_model.specs.NetRoutes.{routes_of};
ghost use Rattle.run_check.specs.broken_laws.Recorded.{AreRecorded};
ghost use Rattle.run_check.specs.broken_laws.FirstBroken.{IsFirstBroken};
ghost use Rattle.run_check.specs.Following.{Follows, HaveNumbers};
ghost use Rattle.run_check.specs.Fresh.{AreFresh};

use crate::broken_laws::Law;
use crate::site::Site;
use crate::walk::Walk;
use net_model::Network;
use run_laws::Run;
use std::alloc::{AllocError, Global};

/// A law that a recorded run breaks, and the row at which it does. Rows are counted from 1, and the run's end is the
/// row after those of its steps.
#[derive(Clone, Copy)]
pub struct Broken {
    pub row: u32,
    pub law: Law,
}

/// The sites of servers at which nothing has been.
fn fresh_sites(alloc: Global, net: &Network, packets: u32) -> Result<Vec<Site>, AllocError>
    ensures { IfOk result (λ v. AreFresh net.now.servers packets (length net.now.servers) v.items) }
{
    let mut sites = Vec::new(alloc);
    for server in net.servers() {
        let site = Site::new(alloc, packets, &server.discipline)?;
        sites.push(site)?;
    }
    Ok(sites)
}

/// Before the first row.
fn fresh_walk(alloc: Global, net: &Network, run: &Run) -> Result<Walk, AllocError>
    requires recorded { AreRecorded (routes_of net.now) [] run.now.steps }
    requires few { length run.now.steps < 2 ^ 32 }
    requires numbers { HaveNumbers (routes_of net.now) run.now }
    ensures { IfOk result (Follows (routes_of net.now) run.now 0) }
{
    net.keeps();
    let packets = run.steps.len() as u32;
    let sites = fresh_sites(alloc, net, packets)?;
    Ok(Walk {
        flows: Vec::new(alloc),
        bits: Vec::new(alloc),
        places: Vec::new(alloc),
        sites,
    })
}

/// How many rows a recorded run has.
fn row_count(run: &Run) -> usize
    ensures { result ≡ length run.now.steps }
{
    run.steps.len()
}

/// The first law that a recorded run of a network breaks, and its row: none exactly where the run is lawful. It asks
/// for steps that name live flows and servers, for packets that are numbered in the order in which they enter, and for
/// numbers that have room. It goes over the rows once, and is refused only for want of memory.
pub fn first_broken(alloc: Global, net: &Network, run: &Run) -> Result<Option<Broken>, AllocError>
    requires recorded { AreRecorded (routes_of net.now) [] run.now.steps }
    requires few { length run.now.steps < 2 ^ 32 - 1 }
    requires numbers { HaveNumbers (routes_of net.now) run.now }
    ensures { IfOk result (λ found. MatchOption found (IsLawful (routes_of net.now) run.now)
        (λ b. IsFirstBroken (routes_of net.now) run.now b.row b.law)) }
{
    let mut walk = fresh_walk(alloc, net, run)?;
    let rows = row_count(run);
    for place in 0..rows {
        if let Some(law) = walk.tell(net, run, place)? {
            return Ok(Some(Broken {
                row: place as u32 + 1,
                law,
            }));
        }
    }
    if walk.is_unfinished(run.end) {
        return Ok(Some(Broken {
            row: rows as u32 + 1,
            law: Law::L9,
        }));
    }
    Ok(None)
}
