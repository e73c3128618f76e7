//! netbound: upper bounds on the delays and backlogs of switched networks of real size.
#![tactic(auto)]

use netbound_cli::{Status, run};
use outside::{DirInputs, StdSink, words_of};
use std::process::ExitCode;

fn main(rt: HostRuntime) -> ExitCode {
    let Ok(words) = words_of(&rt) else {
        return ExitCode::from(Status::NoMemory.code());
    };
    let mut inputs = DirInputs::new(rt);
    let mut out = StdSink::new(rt);
    ExitCode::from(run(rt.alloc(), &words, &mut inputs, &mut out))
}
