//! The answer on the files of a network and of a recorded run.

ghost use Rattle.std.specs.Prelude.{IfOk};
ghost use Rattle.net_model.specs.Accepted.{IsAccepted};
ghost use Rattle.command_replies.specs.View.{reply_of, status_of};
ghost use Rattle.commands.specs.check.OnRuns.{IsCheckReply, IsCheckReplyOnNet};
ghost use Rattle.commands.specs.FileCounts.{CountsOnFile};
ghost use Rattle.commands.specs.check.CheckCounts.{CountsOnNet};

use crate::check::on_net::on_network;
use crate::check::refusals::on_run_fault;
use crate::network_read::network_from;
use command_replies::Answer;
use net_model::Network;
use outcomes::Steps;
use run_check::run_table::read_run;
use std::alloc::{AllocError, Global};
use std::sync::ledger::Ledger;

// The answer on a network and the file of a recorded run.
fn on_rows<L: Ledger>(
    alloc: Global,
    net: &Network,
    run_file: &str,
    run_bytes: &[u8],
    steps: &mut Steps<L>,
) -> Result<Answer, AllocError>
    requires accepted { IsAccepted net.now }
    ensures reply { IfOk result (λ r. IsCheckReplyOnNet net.now run_file.now run_bytes.now (reply_of r)) }
    ensures counts { CountsOnNet net.now run_bytes.now (status_of result) steps.old steps.new }
{
    match read_run(alloc, run_bytes, net) {
        Ok(run) => on_network(alloc, net, &run, steps),
        Err(fault) => on_run_fault(alloc, run_file, fault),
    }
}

/// The answer on a network's file and a recorded run's file with these names and bytes, in this order: a rule that the
/// network's tables break, a curve over a limit, a row of the run that is wrong, a cycle, a cell over a limit, a run that
/// is too wide, and else the report on the run: the first law that it breaks, or, where it is lawful, what is found in it
/// beside the bounds, and what it breaks first. Refused only for want of memory.
pub fn answer_on<L: Ledger>(
    alloc: Global,
    net_file: &str,
    net_bytes: &[u8],
    run_file: &str,
    run_bytes: &[u8],
    steps: &mut Steps<L>,
) -> Result<Answer, AllocError>
    ensures reply { IfOk result
        (λ r. IsCheckReply net_file.now net_bytes.now run_file.now run_bytes.now (reply_of r)) }
    ensures counts { CountsOnFile (λ net. CountsOnNet net run_bytes.now) net_bytes.now (status_of result)
        steps.old steps.new }
{
    match network_from(alloc, net_file, net_bytes, steps) {
        Ok(network) => on_rows(alloc, &network, run_file, run_bytes, steps),
        Err(told) => told,
    }
}
