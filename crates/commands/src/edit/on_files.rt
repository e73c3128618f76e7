//! The answer on a network's file and a list of edits.

ghost use Rattle.std.specs.Prelude.{IfOk};
ghost use Rattle.net_model.specs.Accepted.{IsAccepted};
ghost use Rattle.command_replies.specs.View.{reply_of, status_of};
ghost use Rattle.commands.specs.FileCounts.{CountsOnFile};
ghost use Rattle.commands.specs.edit.EditCounts.{CountsOnNet};
ghost use Rattle.commands.specs.edit.OnEdits.{IsEditReply, IsReplyOnNet};

use crate::edit::on_net::on_network;
use crate::network_read::network_from;
use command_replies::{Answer, on_table_fault};
use input_texts::table_text::read_edits;
use net_model::Network;
use outcomes::Steps;
use report_text::json_report::Form;
use std::alloc::{AllocError, Global};
use std::sync::ledger::Ledger;

// The answer on a network and a list: by the list's first fault, or by the edits that it asks for.
fn on_list<L: Ledger>(
    alloc: Global,
    net: &Network,
    edits_file: &str,
    edits_bytes: &[u8],
    form: Form,
    steps: &mut Steps<L>,
) -> Result<Answer, AllocError>
    requires accepted { IsAccepted net.now }
    ensures reply { IfOk result (λ r. IsReplyOnNet form net.now edits_file.now edits_bytes.now (reply_of r)) }
    ensures counts { CountsOnNet net.now edits_bytes.now (status_of result) steps.old steps.new }
{
    match read_edits(alloc, edits_bytes) {
        Ok(edits) => on_network(alloc, net, &edits, form, steps),
        Err(fault) => on_table_fault(alloc, edits_file, fault),
    }
}

/// The answer on the bytes of a network's file and of a list of edits, in this order: a rule that the tables of the
/// network break, a curve over a limit, a row of the list that is wrong, a cycle, a cell over a limit, and else the
/// report in a form: what is said of each edit, and the bounds of the network after them. Refused only for want of
/// memory.
pub fn answer_on<L: Ledger>(
    alloc: Global,
    net_file: &str,
    net_bytes: &[u8],
    edits_file: &str,
    edits_bytes: &[u8],
    form: Form,
    steps: &mut Steps<L>,
) -> Result<Answer, AllocError>
    ensures reply { IfOk result (λ r.
        IsEditReply form net_file.now net_bytes.now edits_file.now edits_bytes.now (reply_of r)) }
    ensures counts { CountsOnFile (λ net. CountsOnNet net edits_bytes.now) net_bytes.now (status_of result)
        steps.old steps.new }
{
    match network_from(alloc, net_file, net_bytes, steps) {
        Ok(network) => on_list(alloc, &network, edits_file, edits_bytes, form, steps),
        Err(told) => told,
    }
}
