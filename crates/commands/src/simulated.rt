//! The answer on a network and a trace, once the network is analysed.

ghost use Rattle.std.specs.Prelude.{◌≡◌, IfOk};
ghost use Rattle.net_model.specs.Walks.{IsFeedForward};
ghost use Rattle.report_text.specs.RunReport.{found_of};
ghost use Rattle.net_model.specs.stated_runs.FromTraces.{IsTraceOf};
ghost use Rattle.run_watch.specs.simulated_sizes.Laws.{AreCurves};
ghost use Rattle.command_replies.specs.View.{reply_of};
ghost use Rattle.command_replies.specs.simulated_findings.Found.{IsFound, IsReportBy, IsSimulationReplyBy};
ghost use Rattle.commands.specs.Telling.{text_by};

use command_replies::run_findings::status_by;
use command_replies::simulated_findings::{SimFault, find};
use command_replies::{Answer, sim_too_wide};
use exercise_load::exercise_report::summary_text;
use net_cells::cell_table::{Analysis, Table, Value};
use net_model::{Network, Trace};
use report_text::{RunFound, run_text};
use std::alloc::{AllocError, Global};

/// How it is told what was found in a simulation.
#[derive(Clone, Copy)]
pub(crate) enum Telling {
    /// By the report on it.
    Report,
    /// By the summary of a workload, under its number.
    Summary(u64),
}

// The text of what was found, beside the numbers of a table.
fn text_by(
    alloc: Global,
    telling: Telling,
    net: &Network,
    table: &Analysis<Value>,
    found: &RunFound,
) -> Result<Vec<u8>, AllocError>
    ensures { IfOk result (λ text. text.items
        ≡ text_by telling net.now (⟦<Analysis<Value> as Table<Value>>⟧.at table.now) (found_of found.now)) }
{
    match telling {
        Telling::Report => run_text(alloc, net, table, found),
        Telling::Summary(seed) => summary_text(alloc, seed, net, table, found),
    }
}

// The answer that tells what was found, beside the numbers of a table.
fn reported(
    alloc: Global,
    telling: Telling,
    net: &Network,
    trace: &Trace,
    table: &Analysis<Value>,
    found: &RunFound,
) -> Result<Answer, AllocError>
    requires { IsFound net.now trace.now (found_of found.now) }
    ensures { IfOk result (λ r. IsReportBy (text_by telling) net.now trace.now
        (⟦<Analysis<Value> as Table<Value>>⟧.at table.now) (reply_of r)) }
{
    let _packets = trace.packets();
    let text = text_by(alloc, telling, net, table, found)?;
    let status = status_by(&found.breach);
    Ok(Answer { status, text })
}

/// The answer on a network and a trace of it beside the numbers of a table: that the simulation is too wide, or what was
/// found in the stated run.
pub(crate) fn simulated(
    alloc: Global,
    telling: Telling,
    net: &Network,
    trace: &Trace,
    table: &Analysis<Value>,
) -> Result<Answer, AllocError>
    requires curves { AreCurves net.now }
    requires named { IsTraceOf net.now trace.now }
    requires free { IsFeedForward net.now }
    ensures { IfOk result (λ r. IsSimulationReplyBy (text_by telling) net.now trace.now
        (⟦<Analysis<Value> as Table<Value>>⟧.at table.now) (reply_of r)) }
{
    match find(alloc, net, trace) {
        Ok(found) => reported(alloc, telling, net, trace, table, &found),
        Err(SimFault::TooWide) => sim_too_wide(alloc),
        Err(SimFault::NoMemory) => Err(AllocError),
    }
}
