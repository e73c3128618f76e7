//! The report on a list of edits.

ghost use Rattle.std.specs.Prelude.{◌≡◌, ◌++◌, map, IfOk, OnOk};
ghost use Rattle.commands.specs.edit_report.EditReport.{words_of, edit_line, edit_lines, edit_report_of, edit_report_in};
ghost use Rattle.commands.specs.edit_report.Said.{said_view};

use crate::edit_report::json::json_text;
use crate::edit_report::said::Said;
use net_cells::cell_table::Table;
use net_model::Network;
use report_text::json_report::Form;
use report_text::{ShownValue, analysis_text, push_after, push_decimal, push_text};
use std::alloc::{AllocError, Global};

fn push_said(into: &mut Vec<u8>, said: &Said) -> Result<(), AllocError>
    ensures { OnOk result (into.new.items ≡ into.old.items ++ words_of (said_view said.now)) }
{
    match said {
        Said::Made(cells) => {
            push_text(into, "ok cells ")?;
            push_decimal(into, *cells as usize)
        }
        Said::Refused(reason) => push_after(into, "refused ", reason),
    }
}

#[tactic(auto, unfolding(crate::specs::edit_report::EditReport::edit_line))]
fn push_line(into: &mut Vec<u8>, number: usize, said: &Said) -> Result<(), AllocError>
    ensures { OnOk result (into.new.items ≡ into.old.items ++ edit_line number (said_view said.now)) }
{
    push_text(into, "edit ")?;
    push_decimal(into, number)?;
    push_text(into, " ")?;
    push_said(into, said)?;
    push_text(into, "\n")
}

fn push_lines(into: &mut Vec<u8>, said: &[Said]) -> Result<(), AllocError>
    ensures { OnOk result (into.new.items ≡ into.old.items ++ edit_lines (map said_view said.now)) }
{
    for place in 0..said.len() {
        push_line(into, place + 1, &said[place])?;
    }
    Ok(())
}

fn lines_text<V: ShownValue, T: Table<V>>(
    alloc: Global,
    net: &Network,
    table: &T,
    said: &[Said],
) -> Result<Vec<u8>, AllocError>
    ensures { IfOk result (λ text. text.items ≡ edit_report_of net.now (T.at table.now) (map said_view said.now)) }
{
    let mut text = Vec::new(alloc);
    push_lines(&mut text, said)?;
    let report = analysis_text(alloc, net, table)?;
    text.extend_from_slice(&report)?;
    Ok(text)
}

/// The report on a list of edits, with what is said of each (`said_of`), and on the network after them, with the numbers
/// that a table has. Line by line: a line for each edit, with its number from 1 on, and then the lines of the network. As
/// JSON: an object with `edits` beside `flows` and `queues`. Refused only for want of memory.
pub fn edit_text_in<V: ShownValue, T: Table<V>>(
    alloc: Global,
    form: Form,
    net: &Network,
    table: &T,
    said: &[Said],
) -> Result<Vec<u8>, AllocError>
    ensures { IfOk result (λ text. text.items ≡ edit_report_in form net.now (T.at table.now) (map said_view said.now)) }
{
    match form {
        Form::Lines => lines_text(alloc, net, table, said),
        Form::Json => json_text(alloc, net, table, said),
    }
}
