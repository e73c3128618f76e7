//! The answer on a network and a recorded run of it.

ghost use Rattle.std.specs.Prelude.{IfOk};
ghost use Rattle.net_model.specs.Accepted.{IsAccepted};
ghost use Rattle.run_check.specs.run_table.ReadRuns.{IsRecordedRun};
ghost use Rattle.command_replies.specs.View.{reply_of, status_of};
ghost use Rattle.command_replies.specs.run_findings.CellCounts.{CountsOnCells};
ghost use Rattle.commands.specs.check.OnRuns.{IsCheckReplyOnRun};

use crate::check::checked::checked;
use crate::tabled::table_of;
use command_replies::Answer;
use command_replies::run_findings::keeps_curves;
use net_model::Network;
use outcomes::Steps;
use run_laws::Run;
use std::alloc::{AllocError, Global};
use std::sync::ledger::Ledger;

/// The answer on a network and a recorded run of it: of a cycle, of the first cell over a limit, of a run that is too
/// wide, or the report. Refused only for want of memory.
pub(crate) fn on_network<L: Ledger>(
    alloc: Global,
    net: &Network,
    run: &Run,
    steps: &mut Steps<L>,
) -> Result<Answer, AllocError>
    requires accepted { IsAccepted net.now }
    requires recorded { IsRecordedRun net.now run.now }
    ensures reply { IfOk result (λ r. IsCheckReplyOnRun net.now run.now (reply_of r)) }
    ensures counts { CountsOnCells net.now (status_of result) steps.old steps.new }
{
    match table_of(alloc, net, steps) {
        Ok(table) => {
            keeps_curves(net);
            checked(alloc, net, run, &table)
        }
        Err(told) => told,
    }
}
