//! What a run of a network breaks first.

ghost use Rattle.std.specs.Prelude.{IfOk};
ghost use Rattle.run_laws.specs.Lawful.{IsLawful};
ghost use Rattle.net_model.specs.NetRoutes.{routes_of};
ghost use Rattle.run_watch.specs.first_breaches.Sizes.{HaveSizes};
ghost use Rattle.run_watch.specs.first_breaches.Firsts.{TellsFirst};
ghost use Rattle.run_watch.specs.first_breaches.Kept.{AreKept};

use crate::first_breaches::flows::first_of_flows;
use crate::first_breaches::services::first_service;
use net_model::{Breach, Network};
use run_laws::Run;
use std::alloc::{AllocError, Global};

/// What a lawful run of a network breaks first: none exactly where it keeps its packet sizes, its arrival curves and
/// its service curves. Its numbers are those of a gauge below 2^120 (`HaveSizes`). `kept` tells servers by a true at
/// their numbers that are known to keep their service curves in this run: no window of theirs is looked at. Where nothing
/// is known, as of a recorded run, it is empty or all false. Nor is a window of a server looked for that ends later than
/// a breach that is known.
pub fn first_breach(
    alloc: Global,
    net: &Network,
    run: &Run,
    kept: &[bool],
) -> Result<Option<Breach>, AllocError>
    requires lawful { IsLawful (routes_of net.now) run.now }
    requires sizes { HaveSizes net.now run.now }
    requires kept { AreKept net.now run.now kept.now }
    ensures { IfOk result (TellsFirst net.now run.now) }
{
    net.keeps();
    let known = first_of_flows(alloc, net, run)?;
    let found = first_service(alloc, net, run, kept, known)?;
    match found {
        None => Ok(None),
        Some(f) => Ok(Some(f.breach)),
    }
}
