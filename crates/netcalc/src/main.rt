//! netcalc: worst-case bounds on delay and backlog for networks of queues, as exact fractions.
#![tactic(auto)]

#[cfg(test)]
mod cases;
#[cfg(test)]
mod limits;
#[cfg(test)]
mod printers;
#[cfg(test)]
mod worked;

ghost use Rattle.std.specs.Prelude.{◌≡◌, ◌<◌};

use netcalc_cli::{Status, run};
use outcomes::Steps;
use outside::{DirInputs, Inputs, Sink, StdSink, words_of};
use std::marker::Brand;
use std::process::ExitCode;
use std::sync::ledger::{Blank, Ledger};

/// Runs a command with a counter of its own, made from a blank ledger that a proof names. The counter ends with the call,
/// so no caller could see how many steps it counts.
fn run_counted<I: Inputs, K: Sink, L: Ledger>(
    blank: Blank,
    words: &[String],
    inputs: &mut I,
    out: &mut K,
) -> u8
    requires name { blank.name ≡ L.name }
    requires parts { blank.parts ≡ L.parts }
    requires one { 0 < blank.parts }
{
    let mut steps = Steps::<L>::new(blank);
    run(words, inputs, out, &mut steps)
}

fn main(rt: HostRuntime) -> ExitCode {
    let Ok(words) = words_of(&rt) else {
        return ExitCode::from(Status::NoMemory.code());
    };
    let mut inputs = DirInputs::new(rt);
    let mut out = StdSink::new(rt);
    let status = run_counted::<DirInputs<HostRuntime>, StdSink<HostRuntime>, Brand>(
        Blank::new(1),
        &words,
        &mut inputs,
        &mut out,
    );
    ExitCode::from(status)
}
