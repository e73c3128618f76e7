//! Answers of one line.

ghost use Rattle.std.specs.Prelude.{◌≡◌, ◌≢◌, ◌++◌, codes, IfOk, OnOk};
ghost use Rattle.std.specs.Fmt.{decimal};
ghost use Rattle.command_replies.specs.View.{reply_of};
ghost use Rattle.commands.specs.check.Checked as spec;
ghost use Rattle.run_check.specs.declared.run_table.fault.RunKind.TheVariants as kinds;

use command_replies::{Answer, Status};
use report_text::{push_after, push_decimal, push_text};
use run_check::run_table::{RunFault, RunKind};
use std::alloc::{AllocError, Global};

// Which rule a row breaks; want of memory breaks none.
fn rule_word(kind: RunKind) -> &'static str
    ensures { result.now ≡ spec.rule_word kind }
{
    match kind {
        RunKind::T1 => "T1",
        RunKind::T2 => "T2",
        RunKind::T3 => "T3",
        RunKind::T4 => "T4",
        RunKind::T5 => "T5",
        RunKind::T7 => "T7",
        RunKind::T8 => "T8",
        RunKind::NoMemory => "",
    }
}

fn push_fault(into: &mut Vec<u8>, fault: RunFault) -> Result<(), AllocError>
    ensures { OnOk result (into.new.items ≡
        into.old.items ++ (spec.rule_word fault.kind ++ codes " row " ++ decimal fault.row)) }
{
    push_after(into, rule_word(fault.kind), " row ")?;
    push_decimal(into, fault.row as usize)
}

fn bad_run(alloc: Global, file: &str, fault: RunFault) -> Result<Answer, AllocError>
    ensures { IfOk result (λ r. reply_of r ≡ spec.run_fault_reply file.now fault) }
{
    let mut text = Vec::new(alloc);
    push_after(&mut text, "netcalc: ", file)?;
    push_text(&mut text, ": ")?;
    push_fault(&mut text, fault)?;
    push_text(&mut text, "\n")?;
    Ok(Answer {
        status: Status::Malformed,
        text,
    })
}

/// The answer on a file that gives no recorded run.
pub(crate) fn on_run_fault(alloc: Global, file: &str, fault: RunFault) -> Result<Answer, AllocError>
    ensures reply { IfOk result (λ r. reply_of r ≡ spec.run_fault_reply file.now fault) }
    ensures told { IfOk result (λ r. fault.kind ≢ kinds.NoMemory) }
{
    match fault.kind {
        RunKind::NoMemory => Err(AllocError),
        _ => bad_run(alloc, file, fault),
    }
}

/// The answer where a recorded run has too wide numbers.
pub(crate) fn check_too_wide(alloc: Global) -> Result<Answer, AllocError>
    ensures { IfOk result (λ r. reply_of r ≡ spec.too_wide_check) }
{
    let mut text = Vec::new(alloc);
    push_text(&mut text, "netcalc: too wide: check\n")?;
    Ok(Answer {
        status: Status::TooWide,
        text,
    })
}
