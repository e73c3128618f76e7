//! The answer on a network.

ghost use Rattle.std.specs.Prelude.{IfOk};
ghost use Rattle.net_model.specs.Accepted.{IsAccepted};
ghost use Rattle.command_replies.specs.View.{reply_of, status_of};
ghost use Rattle.command_replies.specs.run_findings.CellCounts.{CountsOnCells};
ghost use Rattle.commands.specs.analyse.OnFiles.{IsReplyOnNet};

use crate::tabled::table_of;
use command_replies::{Answer, Status};
use net_model::Network;
use outcomes::Steps;
use report_text::json_report::{Form, text_in};
use std::alloc::{AllocError, Global};
use std::sync::ledger::Ledger;

/// The answer on a network: of a cycle, of the first cell over a limit, or the report. Refused only for want of memory.
pub(crate) fn on_network<L: Ledger>(
    alloc: Global,
    net: &Network,
    form: Form,
    steps: &mut Steps<L>,
) -> Result<Answer, AllocError>
    requires { IsAccepted net.now }
    ensures reply { IfOk result (λ r. IsReplyOnNet form net.now (reply_of r)) }
    ensures counts { CountsOnCells net.now (status_of result) steps.old steps.new }
{
    match table_of(alloc, net, steps) {
        Ok(table) => {
            let text = text_in(alloc, form, net, &table)?;
            Ok(Answer {
                status: Status::Done,
                text,
            })
        }
        Err(told) => told,
    }
}
