//! Answers of one line.

ghost use Rattle.std.specs.Prelude.{◌≡◌, ◌++◌, map, IfOk, OnOk};
ghost use Rattle.std.specs.List.{flat_map};
ghost use Rattle.std.specs.String.{string_bytes};
ghost use Rattle.bounds_command.specs.Replies as replies;
ghost use Rattle.bounds_command.specs.Reports.{name_at};
ghost use Rattle.bounds_command.specs.View.{reply_of};

use document_tables::{LineFault, Names, fault_line};
use replies::{Answer, Status};
use std::alloc::{AllocError, Global};

/// The answer on a table with this first fault.
pub(crate) fn breaks_rule(
    alloc: Global,
    file: &str,
    fault: &LineFault,
) -> Result<Answer, AllocError>
    ensures { IfOk result (λ r. reply_of r ≡ replies.has_fault file.now fault.now) }
{
    let text = fault_line(alloc, file, fault)?;
    Ok(Answer {
        status: Status::Malformed,
        text: text.into_bytes(),
    })
}

/// The name of this number; empty past the last one.
pub(crate) fn name_of(names: &Names, number: usize) -> &str
    ensures { result.now ≡ name_at names.now number }
{
    match names.get(number) {
        Some(name) => name,
        None => "",
    }
}

// The names of the ports, each behind a space.
fn push_names(text: &mut String, names: &Names, ports: &[usize]) -> Result<(), AllocError>
    ensures { OnOk result (string_bytes text.new ≡ string_bytes text.old
        ++ flat_map replies.after_space (map (name_at names.now) ports.now)) }
{
    for port in ports {
        text.push_str(" ")?;
        text.push_str(name_of(names, *port))?;
    }
    Ok(())
}

/// The answer where links go round over these ports.
pub(crate) fn goes_round(
    alloc: Global,
    names: &Names,
    ports: &[usize],
) -> Result<Answer, AllocError>
    ensures { IfOk result (λ r. reply_of r
        ≡ replies.goes_round (map (name_at names.now) ports.now)) }
{
    let mut text = String::from_str(alloc, "netbound: cycle")?;
    push_names(&mut text, names, ports)?;
    text.push_str("\n")?;
    Ok(Answer {
        status: Status::Cycle,
        text: text.into_bytes(),
    })
}
