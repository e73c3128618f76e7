//! The answer of a command. Each has a function of its own, which fetches its files and answers on them.

ghost use Rattle.rational.specs.Rational.{◌≤ℚ◌};
ghost use Rattle.min_plus.specs.Functions.{zero_q};
ghost use Rattle.netcalc_cli.specs.Answered.{IsAnswered};
ghost use Rattle.netcalc_cli.specs.Commands as commands;
ghost use Rattle.netcalc_cli.specs.View.{command_view};

use crate::words::Command;
use commands::{analyse, check, curve, edit, exercise, measure, simulate};
use fraction128::Frac;
use outcomes::Steps;
use outside::{Inputs, NoMemory};
use replies::{Answer, fetch_one, fetch_two, unread_answer};
use report_text::json_report::Form;
use std::alloc::Global;
use std::sync::ledger::Ledger;

// What each line of a refusal begins with.
const FRONT: &str = "netcalc: ";

// The most bytes that a file may have.
const MOST_BYTES: usize = 1_048_576;

fn on_network<I: Inputs, L: Ledger>(
    alloc: Global,
    form: Form,
    net: &str,
    inputs: &mut I,
    steps: &mut Steps<L>,
) -> Result<Answer, NoMemory>
    ensures { IsAnswered I.content I.faults I.last_fault I.asked I.had (commands.Analyse form net.now)
        inputs.old inputs.new result steps.old steps.new }
{
    match fetch_one(alloc, MOST_BYTES, net, inputs) {
        Ok(bytes) => analyse::answer_on(alloc, net, &bytes, form, steps),
        Err(unread) => unread_answer(alloc, FRONT, unread),
    }
}

fn on_edited<I: Inputs, L: Ledger>(
    alloc: Global,
    form: Form,
    net: &str,
    edits: &str,
    inputs: &mut I,
    steps: &mut Steps<L>,
) -> Result<Answer, NoMemory>
    ensures { IsAnswered I.content I.faults I.last_fault I.asked I.had (commands.Edit form net.now edits.now)
        inputs.old inputs.new result steps.old steps.new }
{
    match fetch_two(alloc, MOST_BYTES, net, edits, inputs) {
        Ok((bytes, rows)) => edit::answer_on(alloc, net, &bytes, edits, &rows, form, steps),
        Err(unread) => unread_answer(alloc, FRONT, unread),
    }
}

fn on_simulated<I: Inputs, L: Ledger>(
    alloc: Global,
    net: &str,
    trace: &str,
    inputs: &mut I,
    steps: &mut Steps<L>,
) -> Result<Answer, NoMemory>
    ensures { IsAnswered I.content I.faults I.last_fault I.asked I.had (commands.Simulate net.now trace.now)
        inputs.old inputs.new result steps.old steps.new }
{
    match fetch_two(alloc, MOST_BYTES, net, trace, inputs) {
        Ok((bytes, rows)) => simulate::answer_on(alloc, net, &bytes, trace, &rows, steps),
        Err(unread) => unread_answer(alloc, FRONT, unread),
    }
}

fn on_checked<I: Inputs, L: Ledger>(
    alloc: Global,
    net: &str,
    run: &str,
    inputs: &mut I,
    steps: &mut Steps<L>,
) -> Result<Answer, NoMemory>
    ensures { IsAnswered I.content I.faults I.last_fault I.asked I.had (commands.Check net.now run.now)
        inputs.old inputs.new result steps.old steps.new }
{
    match fetch_two(alloc, MOST_BYTES, net, run, inputs) {
        Ok((bytes, rows)) => check::answer_on(alloc, net, &bytes, run, &rows, steps),
        Err(unread) => unread_answer(alloc, FRONT, unread),
    }
}

// No file is fetched.
fn on_exercise<I: Inputs, L: Ledger>(
    alloc: Global,
    seed: u64,
    inputs: &I,
    steps: &mut Steps<L>,
) -> Result<Answer, NoMemory>
    ensures { IsAnswered I.content I.faults I.last_fault I.asked I.had (commands.Exercise seed)
        inputs.now inputs.now result steps.old steps.new }
{
    exercise::answer_on(alloc, seed, steps)
}

fn on_measured<I: Inputs, L: Ledger>(
    alloc: Global,
    net: &str,
    trace: &str,
    name: &str,
    rate: Frac,
    inputs: &mut I,
    steps: &mut Steps<L>,
) -> Result<Answer, NoMemory>
    requires { zero_q ≤ℚ rate }
    ensures { IsAnswered I.content I.faults I.last_fault I.asked I.had (commands.Measure net.now trace.now name.now rate)
        inputs.old inputs.new result steps.old steps.new }
{
    match fetch_two(alloc, MOST_BYTES, net, trace, inputs) {
        Ok((bytes, rows)) => measure::answer_on(
            alloc, net, &bytes, trace, &rows, name, rate, steps,
        ),
        Err(unread) => unread_answer(alloc, FRONT, unread),
    }
}

fn on_curves<I: Inputs, L: Ledger>(
    alloc: Global,
    script: &str,
    inputs: &mut I,
    steps: &mut Steps<L>,
) -> Result<Answer, NoMemory>
    ensures { IsAnswered I.content I.faults I.last_fault I.asked I.had (commands.Curve script.now)
        inputs.old inputs.new result steps.old steps.new }
{
    match fetch_one(alloc, MOST_BYTES, script, inputs) {
        Ok(bytes) => curve::answer_on(alloc, script, &bytes, steps),
        Err(unread) => unread_answer(alloc, FRONT, unread),
    }
}

/// The answer of a command, whose files are fetched first.
pub(crate) fn answer_to<I: Inputs, L: Ledger>(
    alloc: Global,
    command: Command<'_>,
    inputs: &mut I,
    steps: &mut Steps<L>,
) -> Result<Answer, NoMemory>
    requires rate { commands.HasRate (command_view command) }
    ensures { IsAnswered I.content I.faults I.last_fault I.asked I.had (command_view command.entry)
        inputs.old inputs.new result steps.old steps.new }
{
    match command {
        Command::Analyse(form, net) => on_network(alloc, form, net, inputs, steps),
        Command::Edit(form, net, edits) => on_edited(alloc, form, net, edits, inputs, steps),
        Command::Simulate(net, trace) => on_simulated(alloc, net, trace, inputs, steps),
        Command::Exercise(seed) => on_exercise(alloc, seed, inputs, steps),
        Command::Check(net, run) => on_checked(alloc, net, run, inputs, steps),
        Command::Measure(net, trace, name, rate) => {
            on_measured(alloc, net, trace, name, rate, inputs, steps)
        }
        Command::Curve(script) => on_curves(alloc, script, inputs, steps),
    }
}
