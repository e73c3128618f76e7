//! The answer on a network and a trace of it.

ghost use Rattle.std.specs.Prelude.{IfOk};
ghost use Rattle.net_model.specs.Accepted.{IsAccepted};
ghost use Rattle.net_model.specs.stated_runs.FromTraces.{IsTraceOf};
ghost use Rattle.command_replies.specs.View.{reply_of, status_of};
ghost use Rattle.command_replies.specs.run_findings.CellCounts.{CountsOnCells};
ghost use Rattle.commands.specs.simulate.OnTraces.{IsRunReplyOnTrace};

use crate::simulated::{Telling, simulated};
use crate::tabled::table_of;
use command_replies::Answer;
use command_replies::run_findings::keeps_curves;
use net_model::{Network, Trace};
use outcomes::Steps;
use std::alloc::{AllocError, Global};
use std::sync::ledger::Ledger;

/// The answer on a network and a trace of it: of a cycle, of the first cell over a limit, of a simulation that is too
/// wide, or the report. Refused only for want of memory.
pub(crate) fn on_network<L: Ledger>(
    alloc: Global,
    net: &Network,
    trace: &Trace,
    steps: &mut Steps<L>,
) -> Result<Answer, AllocError>
    requires accepted { IsAccepted net.now }
    requires named { IsTraceOf net.now trace.now }
    ensures reply { IfOk result (λ r. IsRunReplyOnTrace net.now trace.now (reply_of r)) }
    ensures counts { CountsOnCells net.now (status_of result) steps.old steps.new }
{
    match table_of(alloc, net, steps) {
        Ok(table) => {
            keeps_curves(net);
            simulated(alloc, Telling::Report, net, trace, &table)
        }
        Err(told) => told,
    }
}
