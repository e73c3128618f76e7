//! What is said of one edit.

ghost use Rattle.std.specs.Prelude.{◌≡◌, ◌++◌, map, string_bytes, IfOk, OnOk};
ghost use Rattle.report_text.specs.CellWords.{server_name, cell_words};
ghost use Rattle.report_text.specs.Refusals.{spaced};
ghost use Rattle.commands.specs.edit_report.Said as spec;

use net_cells::Cell;
use net_edits::EditFault;
use net_model::{Done, Network};
use report_text::{cell_text, server_name};
use std::alloc::{AllocError, Global};

/// What is said of an edit.
#[derive(Drop)]
pub enum Said {
    /// It is made, and this many cells were touched.
    Made(u32),
    /// It is refused, for this reason.
    Refused(String),
}

fn push_both(into: &mut String, words: &str, more: &str) -> Result<(), AllocError>
    ensures { OnOk result (string_bytes into.new ≡ string_bytes into.old ++ (words.now ++ more.now)) }
{
    into.push_str(words)?;
    into.push_str(more)?;
    Ok(())
}

fn push_words(into: &mut String, words: &str) -> Result<(), AllocError>
    ensures { OnOk result (string_bytes into.new ≡ string_bytes into.old ++ words.now) }
{
    into.push_str(words)?;
    Ok(())
}

// The names of servers, each after a space.
fn push_walk(into: &mut String, net: &Network, walk: &[u32]) -> Result<(), AllocError>
    ensures { OnOk result (string_bytes into.new
        ≡ string_bytes into.old ++ spaced (map (server_name net.now) walk.now)) }
{
    for server in walk {
        push_both(into, " ", server_name(net, *server))?;
    }
    Ok(())
}

// Words, and a cell after them.
fn push_cell(
    alloc: Global,
    into: &mut String,
    words: &str,
    net: &Network,
    cell: Cell,
) -> Result<(), AllocError>
    ensures { OnOk result (string_bytes into.new
        ≡ string_bytes into.old ++ (words.now ++ cell_words net.now cell)) }
{
    let text = cell_text(alloc, net, cell)?;
    push_both(into, words, text.as_str())
}

fn push_reason(
    alloc: Global,
    into: &mut String,
    net: &Network,
    fault: &EditFault,
) -> Result<(), AllocError>
    ensures { OnOk result (string_bytes into.new ≡ string_bytes into.old ++ spec.reason net.now fault.now) }
{
    match fault {
        EditFault::UnknownName(name) => push_both(into, "unknown-name ", name.as_str()),
        EditFault::NameTaken(name) => push_both(into, "name-taken ", name.as_str()),
        EditFault::BadValue => push_words(into, "bad-value"),
        EditFault::LimitReached => push_words(into, "limit"),
        EditFault::Cycle(walk) => {
            push_words(into, "cycle")?;
            push_walk(into, net, walk)
        }
        EditFault::TooMany(cell) => push_cell(alloc, into, "too-many ", net, *cell),
        EditFault::TooWide(cell) => push_cell(alloc, into, "too-wide ", net, *cell),
        EditFault::NothingToUndo => push_words(into, "nothing-to-undo"),
        EditFault::NoMemory => Ok(()),
    }
}

/// What is said of an edit, by its answer and the network that it makes or would have made: how many cells it touched, or
/// why it is refused, with the names of a cycle's servers or of a cell. Of an edit that makes none, because of a curve over
/// a limit, it is the network before. Refused only for want of memory.
pub fn said_of(
    alloc: Global,
    edited: &Network,
    answer: &Result<Done, EditFault>,
) -> Result<Said, AllocError>
    ensures { IfOk result (λ said. spec.said_view said ≡ spec.said_of edited.now answer.now) }
{
    match answer {
        Ok(done) => Ok(Said::Made(done.cells)),
        Err(fault) => {
            let mut reason = String::new(alloc);
            push_reason(alloc, &mut reason, edited, fault)?;
            Ok(Said::Refused(reason))
        }
    }
}
