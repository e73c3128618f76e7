//! The answer on the number of a workload.

ghost use Rattle.std.specs.Prelude.{IfOk};
ghost use Rattle.command_replies.specs.View.{reply_of, status_of};
ghost use Rattle.command_replies.specs.run_findings.CellCounts.{CountsOnCells};
ghost use Rattle.exercise_load.specs.Workloads.{network_of};
ghost use Rattle.commands.specs.exercise.OnSeeds.{IsExerciseReply};

use crate::exercise::on_workload::on_workload;
use command_replies::Answer;
use exercise_load::workload;
use outcomes::Steps;
use std::alloc::{AllocError, Global};
use std::sync::ledger::Ledger;

/// The answer on the number of a workload, in this order: a cell of its network over a limit, a simulation of its trace
/// that is too wide, and else the summary of both, with what the run breaks first. Refused only for want of memory.
pub fn answer_on<L: Ledger>(
    alloc: Global,
    seed: u64,
    steps: &mut Steps<L>,
) -> Result<Answer, AllocError>
    ensures reply { IfOk result (λ r. IsExerciseReply seed (reply_of r)) }
    ensures counts { CountsOnCells (network_of seed) (status_of result) steps.old steps.new }
{
    let load = workload(alloc, seed)?;
    on_workload(alloc, seed, &load.net, &load.trace, steps)
}
