//! The answer on the files of a network and of a trace.

ghost use Rattle.std.specs.Prelude.{IfOk};
ghost use Rattle.net_model.specs.Accepted.{IsAccepted};
ghost use Rattle.command_replies.specs.View.{reply_of, status_of};
ghost use Rattle.commands.specs.simulate.OnTraces.{IsRunReply, IsRunReplyOnNet};
ghost use Rattle.commands.specs.FileCounts.{CountsOnFile};
ghost use Rattle.commands.specs.simulate.RunCounts.{CountsOnNet};

use crate::network_read::network_from;
use crate::simulate::on_net::on_network;
use command_replies::{Answer, on_table_fault};
use input_texts::table_text::read_trace;
use net_model::Network;
use outcomes::Steps;
use std::alloc::{AllocError, Global};
use std::sync::ledger::Ledger;

// The answer on a network and the file of a trace.
fn on_rows<L: Ledger>(
    alloc: Global,
    net: &Network,
    trace_file: &str,
    trace_bytes: &[u8],
    steps: &mut Steps<L>,
) -> Result<Answer, AllocError>
    requires accepted { IsAccepted net.now }
    ensures reply { IfOk result (λ r. IsRunReplyOnNet net.now trace_file.now trace_bytes.now (reply_of r)) }
    ensures counts { CountsOnNet net.now trace_bytes.now (status_of result) steps.old steps.new }
{
    match read_trace(alloc, trace_bytes, net) {
        Ok(trace) => {
            let _kept = trace.packets();
            on_network(alloc, net, &trace, steps)
        }
        Err(fault) => on_table_fault(alloc, trace_file, fault),
    }
}

/// The answer on a network's file and a trace's file with these names and bytes, in this order: a rule that the
/// network's tables break, a curve over a limit, a row of the trace that is wrong, a cycle, a cell over a limit, a
/// simulation that is too wide, and else the report on the simulated run beside the bounds, with what the run breaks
/// first. Refused only for want of memory.
pub fn answer_on<L: Ledger>(
    alloc: Global,
    net_file: &str,
    net_bytes: &[u8],
    trace_file: &str,
    trace_bytes: &[u8],
    steps: &mut Steps<L>,
) -> Result<Answer, AllocError>
    ensures reply { IfOk result
        (λ r. IsRunReply net_file.now net_bytes.now trace_file.now trace_bytes.now (reply_of r)) }
    ensures counts { CountsOnFile (λ net. CountsOnNet net trace_bytes.now) net_bytes.now (status_of result)
        steps.old steps.new }
{
    match network_from(alloc, net_file, net_bytes, steps) {
        Ok(network) => on_rows(alloc, &network, trace_file, trace_bytes, steps),
        Err(told) => told,
    }
}
