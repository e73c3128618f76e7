//! The answer on a file.

ghost use Rattle.std.specs.Prelude.{IfOk};
ghost use Rattle.command_replies.specs.View.{reply_of, status_of};
ghost use Rattle.command_replies.specs.run_findings.CellCounts.{CountsOnCells};
ghost use Rattle.commands.specs.FileCounts.{CountsOnFile};
ghost use Rattle.commands.specs.analyse.OnFiles.{IsReplyOn};

use crate::analyse::on_net::on_network;
use crate::network_read::network_from;
use command_replies::Answer;
use outcomes::Steps;
use report_text::json_report::Form;
use std::alloc::{AllocError, Global};
use std::sync::ledger::Ledger;

/// The answer on a file with this name and these bytes, in this order: a rule that its tables break, a curve over a
/// limit, a cycle, a cell over a limit, and else the report in a form. Refused only for want of memory.
pub fn answer_on<L: Ledger>(
    alloc: Global,
    file: &str,
    bytes: &[u8],
    form: Form,
    steps: &mut Steps<L>,
) -> Result<Answer, AllocError>
    ensures reply { IfOk result (λ r. IsReplyOn form file.now bytes.now (reply_of r)) }
    ensures counts { CountsOnFile CountsOnCells bytes.now (status_of result) steps.old steps.new }
{
    match network_from(alloc, file, bytes, steps) {
        Ok(network) => on_network(alloc, &network, form, steps),
        Err(told) => told,
    }
}
