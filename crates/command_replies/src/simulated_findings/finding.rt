//! What is found in a simulated run.

ghost use Rattle.std.specs.Prelude.{◌≤◌, ◌<◌, ◌^◌, IfOk, IsErrOf, length};
ghost use Rattle.net_model.specs.Walks.{IsFeedForward};
ghost use Rattle.net_model.specs.stated_runs.FromTraces.{IsTraceOf};
ghost use Rattle.sim_bounds.specs.Gauge.{simulation_gauge};
ghost use Rattle.run_watch.specs.simulated_sizes.Laws.{AreCurves};
ghost use Rattle.report_text.specs.RunReport.{found_of};
ghost use Rattle.command_replies.specs.run_findings.Findings.{AreFindings};
ghost use Rattle.command_replies.specs.simulated_findings.Found.{IsMeasured, IsFound};

use crate::simulated_findings::told::open_servers;
use net_model::{Network, Trace};
use report_text::RunFound;
use run_watch::first_breaches::first_breach;
use simulator::SimFault;
use simulator::packet_sim::{SimRun, simulate};
use std::alloc::{AllocError, Global};

// What is found in the stated run of a network and a trace.
fn found_in(
    alloc: Global,
    net: &Network,
    trace: &Trace,
    sim: SimRun,
) -> Result<RunFound, AllocError>
    requires curves { AreCurves net.now }
    requires named { IsTraceOf net.now trace.now }
    requires free { IsFeedForward net.now }
    requires narrow { simulation_gauge net.now trace.now < 2 ^ 120 }
    requires measured { IsMeasured net.now trace.now sim }
    ensures { IfOk result (λ f. AreFindings net.now sim.run (length trace.now.packets) (found_of f)) }
{
    net.keeps();
    let packets = trace.packets().len() as u32;
    let kept = open_servers(alloc, net, trace)?;
    let breach = first_breach(alloc, net, &sim.run, &kept)?;
    let SimRun { run, worst, peaks } = sim;
    Ok(RunFound {
        packets,
        end: run.end,
        worst,
        peaks,
        breach,
    })
}

/// What is found in the stated run of a network and a trace: how many packets enter, when it ends, the largest delay of
/// each flow (in units of time), the greatest backlog of each queue (in bits), and what it breaks first. Want of memory
/// apart, `TooWide` exactly where the simulation gauge of both is 2^120 or more; `NoMemory` only below it, where an
/// allocation is refused.
pub fn find(alloc: Global, net: &Network, trace: &Trace) -> Result<RunFound, SimFault>
    requires curves { AreCurves net.now }
    requires named { IsTraceOf net.now trace.now }
    requires free { IsFeedForward net.now }
    ensures found { IfOk result (λ f. IsFound net.now trace.now (found_of f)) }
    ensures refused { IsErrOf result SimFault.TooWide → 2 ^ 120 ≤ simulation_gauge net.now trace.now }
    ensures memory { IsErrOf result SimFault.NoMemory → simulation_gauge net.now trace.now < 2 ^ 120 }
{
    let sim = simulate(alloc, net, trace)?;
    let found = found_in(alloc, net, trace, sim)?;
    Ok(found)
}
