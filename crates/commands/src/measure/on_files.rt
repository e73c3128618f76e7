//! The answer on a network's file and a trace.

ghost use Rattle.std.specs.Prelude.{IfOk};
ghost use Rattle.rational.specs.Rational.{◌≤ℚ◌};
ghost use Rattle.min_plus.specs.Functions.{zero_q};
ghost use Rattle.command_replies.specs.View.{reply_of, status_of};
ghost use Rattle.commands.specs.measure.MeasureCounts.{CountsOn, CountsOnTrace};
ghost use Rattle.commands.specs.measure.OnMeasures.{IsMeasureReply, IsReplyOnNet};

use crate::measure::on_trace::on_trace;
use crate::network_read::network_from;
use command_replies::{Answer, on_table_fault};
use fraction128::Frac;
use input_texts::table_text::read_trace;
use net_model::Network;
use outcomes::Steps;
use std::alloc::{AllocError, Global};
use std::sync::ledger::Ledger;

// The answer on a network and the bytes of a trace: by the trace's first fault, or on the trace.
fn on_rows<L: Ledger>(
    alloc: Global,
    net: &Network,
    trace_file: &str,
    trace_bytes: &[u8],
    name: &str,
    rate: Frac,
    steps: &mut Steps<L>,
) -> Result<Answer, AllocError>
    requires rate { zero_q ≤ℚ rate }
    ensures reply { IfOk result (λ r. IsReplyOnNet net.now trace_file.now trace_bytes.now name.now rate (reply_of r)) }
    ensures counts { CountsOnTrace (status_of result) steps.old steps.new }
{
    match read_trace(alloc, trace_bytes, net) {
        Ok(trace) => on_trace(alloc, net, &trace, name, rate, steps),
        Err(fault) => on_table_fault(alloc, trace_file, fault),
    }
}

/// The answer on the bytes of a network's file and of a trace, for a flow's name and a rate from 0 on, in this order:
/// a rule that the tables of the network break, a curve over a limit, a row of the trace that is wrong, a name that
/// no live flow has, packets over a limit, a burst over a limit, and else the report: the least arrival curve of the
/// flow's packets, and the least bucket of the rate that they keep. Refused only for want of memory.
pub fn answer_on<L: Ledger>(
    alloc: Global,
    net_file: &str,
    net_bytes: &[u8],
    trace_file: &str,
    trace_bytes: &[u8],
    name: &str,
    rate: Frac,
    steps: &mut Steps<L>,
) -> Result<Answer, AllocError>
    requires { zero_q ≤ℚ rate }
    ensures reply { IfOk result (λ r.
        IsMeasureReply net_file.now net_bytes.now trace_file.now trace_bytes.now name.now rate (reply_of r)) }
    ensures counts { CountsOn net_bytes.now (status_of result) steps.old steps.new }
{
    match network_from(alloc, net_file, net_bytes, steps) {
        Ok(network) => on_rows(alloc, &network, trace_file, trace_bytes, name, rate, steps),
        Err(told) => told,
    }
}
