//! The answer on a workload.

ghost use Rattle.std.specs.Prelude.{IfOk};
ghost use Rattle.command_replies.specs.View.{reply_of, status_of};
ghost use Rattle.command_replies.specs.run_findings.CellCounts.{CountsOnCells};
ghost use Rattle.exercise_load.specs.Loads.{AreOfWorkload};
ghost use Rattle.exercise_load.specs.Workloads.{network_of};
ghost use Rattle.commands.specs.exercise.OnSeeds.{IsExerciseReply};

use crate::simulated::{Telling, simulated};
use crate::tabled::table_of;
use command_replies::Answer;
use command_replies::run_findings::keeps_curves;
use net_model::{Network, Trace};
use outcomes::Steps;
use std::alloc::{AllocError, Global};
use std::sync::ledger::Ledger;

/// The answer on a workload: of the first cell over a limit, of a simulation that is too wide, or the summary.
pub(crate) fn on_workload<L: Ledger>(
    alloc: Global,
    seed: u64,
    net: &Network,
    trace: &Trace,
    steps: &mut Steps<L>,
) -> Result<Answer, AllocError>
    requires { AreOfWorkload seed net.now trace.now }
    ensures reply { IfOk result (λ r. IsExerciseReply seed (reply_of r)) }
    ensures counts { CountsOnCells (network_of seed) (status_of result) steps.old steps.new }
{
    net.keeps();
    match table_of(alloc, net, steps) {
        Ok(table) => {
            keeps_curves(net);
            simulated(alloc, Telling::Summary(seed), net, trace, &table)
        }
        Err(told) => told,
    }
}
