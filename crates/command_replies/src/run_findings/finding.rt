//! What is found in a run.

ghost use Rattle.std.specs.Prelude.{◌≡◌, IfOk};
ghost use Rattle.run_laws.specs.Lawful.{IsLawful};
ghost use Rattle.net_model.specs.NetRoutes.{routes_of};
ghost use Rattle.simulator.specs.run_measures.Worst.{DelaysFit};
ghost use Rattle.run_watch.specs.first_breaches.Sizes.{HaveSizes};
ghost use Rattle.report_text.specs.RunReport.{found_of};
ghost use Rattle.command_replies.specs.View.{code_of};
ghost use Rattle.command_replies.specs.run_findings.Findings.{AreFindings, status_by};

use crate::Status;
use net_model::{Breach, Network};
use report_text::RunFound;
use run_laws::Run;
use run_watch::first_breaches::first_breach;
use simulator::run_measures::{peaks, worst_delays};
use std::alloc::{AllocError, Global};

/// What is found in a lawful run of a network that so many packets enter, of which nothing more is known: when it ends,
/// the largest delay of each flow (in units of time), the greatest backlog of each queue (in bits), and what it breaks
/// first. Its numbers have room, and are those of a gauge below 2^120. Refused only for want of memory.
pub fn findings(
    alloc: Global,
    net: &Network,
    run: &Run,
    entered: u32,
) -> Result<RunFound, AllocError>
    requires lawful { IsLawful (routes_of net.now) run.now }
    requires fits { DelaysFit (routes_of net.now) run.now.end run.now.steps }
    requires sizes { HaveSizes net.now run.now }
    ensures { IfOk result (λ f. AreFindings net.now run.now entered (found_of f)) }
{
    let worst = worst_delays(alloc, net, run)?;
    let peaks = peaks(alloc, net, run)?;
    let breach = first_breach(alloc, net, run, &[])?;
    Ok(RunFound {
        packets: entered,
        end: run.end,
        worst,
        peaks,
        breach,
    })
}

/// How a call ends with a report on a run, by what the run breaks first: 0 where it breaks nothing, else 9.
pub fn status_by(breach: &Option<Breach>) -> Status
    ensures { code_of result ≡ status_by breach.now }
{
    match breach {
        None => Status::Done,
        Some(_) => Status::Breach,
    }
}
