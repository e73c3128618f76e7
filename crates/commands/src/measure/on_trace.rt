//! The answer on a trace.

ghost use Rattle.std.specs.Prelude.{◌≡◌, IfOk, length};
ghost use Rattle.rational.specs.Rational.{◌≤ℚ◌};
ghost use Rattle.min_plus.specs.Functions.{zero_q};
ghost use Rattle.upp_curve.specs.Curve.{value_at};
ghost use Rattle.measure_curve.specs.Bursts.{IsBounded};
ghost use Rattle.measure_curve.specs.Limits.{AreTooMany, AreTooWide};
ghost use Rattle.measure_curve.specs.Staircases.{TellRises};
ghost use Rattle.measure_curve.specs.Windows.{of_flow, IsLeastArrival};
ghost use Rattle.command_replies.specs.View.{reply_of, status_of};
ghost use Rattle.commands.specs.measure.MeasureCounts.{CountsOnTrace};
ghost use Rattle.commands.specs.measure.OnMeasures.{IsReplyOnPackets, IsReplyOnTrace};

use crate::measure::refusals::{too_many, too_wide, unknown_flow};
use command_replies::{Answer, Status};
use fraction128::Frac;
use measure_curve::{MeasureFault, least_burst, least_curve};
use net_model::{Network, Trace};
use outcomes::Steps;
use report_text::measure_report::measure_text;
use std::alloc::{AllocError, Global};
use std::sync::ledger::Ledger;
use upp_curve::Curve;
use upp_limits::OpFault;

// How many packets of a trace a flow has.
fn packets_of(trace: &Trace, flow: u32) -> usize
    ensures { result ≡ length (of_flow flow trace.now.packets) }
{
    trace
        .packets()
        .iter()
        .filter(|packet| packet.flow == flow)
        .count()
}

// The answer on the least arrival curve of a flow's packets: the burst over a limit, or the report.
fn on_curve<L: Ledger>(
    alloc: Global,
    trace: &Trace,
    flow: u32,
    name: &str,
    curve: &Curve,
    rate: Frac,
    steps: &mut Steps<L>,
) -> Result<Answer, AllocError>
    requires few { ¬ (AreTooMany (of_flow flow trace.now.packets)) }
    requires narrow { ¬ (AreTooWide (of_flow flow trace.now.packets)) }
    requires least { IsLeastArrival (of_flow flow trace.now.packets) (value_at curve.now) }
    requires rises { TellRises (value_at curve.now) curve.now.pieces }
    requires bounded { IsBounded (value_at curve.now) }
    requires rate { zero_q ≤ℚ rate }
    ensures reply { IfOk result (λ r. IsReplyOnPackets (of_flow flow trace.now.packets) name.now rate (reply_of r)) }
    ensures counts { CountsOnTrace (status_of result) steps.old steps.new }
{
    curve.keeps();
    match least_burst(curve, rate, steps) {
        Ok(burst) => {
            let packets = packets_of(trace, flow);
            let text = measure_text(alloc, name, packets, curve, burst, rate)?;
            Ok(Answer {
                status: Status::Done,
                text,
            })
        }
        Err(OpFault::TooMany) => too_many(alloc, "burst"),
        Err(OpFault::TooWide) => too_wide(alloc, "burst"),
        Err(OpFault::NoMemory) => Err(AllocError),
    }
}

// The answer on a flow of a trace: its packets over a limit, or their least arrival curve.
fn on_flow<L: Ledger>(
    alloc: Global,
    trace: &Trace,
    flow: u32,
    name: &str,
    rate: Frac,
    steps: &mut Steps<L>,
) -> Result<Answer, AllocError>
    requires rate { zero_q ≤ℚ rate }
    ensures reply { IfOk result (λ r. IsReplyOnPackets (of_flow flow trace.now.packets) name.now rate (reply_of r)) }
    ensures counts { CountsOnTrace (status_of result) steps.old steps.new }
{
    match least_curve(alloc, trace, flow) {
        Ok(curve) => on_curve(alloc, trace, flow, name, &curve, rate, steps),
        Err(MeasureFault::TooMany) => too_many(alloc, "measure"),
        Err(MeasureFault::TooWide) => too_wide(alloc, "measure"),
        Err(MeasureFault::NoMemory) => Err(AllocError),
    }
}

/// The answer on a trace of a network, for a flow's name: that no live flow has it, or the answer on the flow's
/// packets.
pub(crate) fn on_trace<L: Ledger>(
    alloc: Global,
    net: &Network,
    trace: &Trace,
    name: &str,
    rate: Frac,
    steps: &mut Steps<L>,
) -> Result<Answer, AllocError>
    requires rate { zero_q ≤ℚ rate }
    ensures reply { IfOk result (λ r. IsReplyOnTrace net.now trace.now name.now rate (reply_of r)) }
    ensures counts { CountsOnTrace (status_of result) steps.old steps.new }
{
    match net.flow_named(name) {
        Some(flow) => on_flow(alloc, trace, flow, name, rate, steps),
        None => unknown_flow(alloc, name),
    }
}
