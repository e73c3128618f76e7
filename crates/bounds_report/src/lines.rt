//! The lines of a report.

ghost use Rattle.std.specs.Prelude.{◌≡◌, ◌++◌, All, OnOk, IfOk};
ghost use Rattle.std.specs.List.{flat_map};
ghost use Rattle.std.specs.Fmt.{decimal};
ghost use Rattle.std.specs.String.{string_bytes};
ghost use Rattle.bounds_report.specs.Lines as spec;
ghost use Rattle.table_cells.specs.Amounts.{IsAmount};
ghost use Rattle.bounds_report.specs.Numbers.{exact, microseconds, or_none, thousandths};
ghost use Rattle.bounds_report.specs.Ranges.{HasDeadlineInRange};

use crate::numbers::{add_count, add_exact, add_load, add_time, is_met};
use crate::rows::{BranchRow, QueueRow, Report};
use std::alloc::{AllocError, Global};
use table_cells::Amount;

// Puts a text behind what tells of it.
fn push_told(into: &mut String, label: &str, text: &str) -> Result<(), AllocError>
    ensures { OnOk result (string_bytes into.new ≡ string_bytes into.old ++ (label.now ++ text.now)) }
{
    into.push_str(label)?;
    into.push_str(text)
}

// Puts a number behind what tells of it.
fn push_number(into: &mut String, label: &str, number: u64) -> Result<(), AllocError>
    ensures { OnOk result (string_bytes into.new ≡ string_bytes into.old ++ (label.now ++ decimal number)) }
{
    into.push_str(label)?;
    add_count(into, Some(number))
}

// Puts a load behind what tells of it.
fn push_load(into: &mut String, label: &str, load: Option<u128>) -> Result<(), AllocError>
    ensures { OnOk result (string_bytes into.new ≡ string_bytes into.old ++ (label.now ++ or_none thousandths load)) }
{
    into.push_str(label)?;
    add_load(into, load)
}

// Puts a time behind what tells of it.
fn push_time(into: &mut String, label: &str, time: Option<u64>) -> Result<(), AllocError>
    ensures { OnOk result (string_bytes into.new ≡ string_bytes into.old ++ (label.now ++ or_none microseconds time)) }
{
    into.push_str(label)?;
    add_time(into, time)
}

// Puts a count of bits behind what tells of it.
fn push_count(into: &mut String, label: &str, count: Option<u64>) -> Result<(), AllocError>
    ensures { OnOk result (string_bytes into.new ≡ string_bytes into.old ++ (label.now ++ or_none decimal count)) }
{
    into.push_str(label)?;
    add_count(into, count)
}

// Puts an exact number behind what tells of it.
fn push_exact(into: &mut String, label: &str, number: Amount) -> Result<(), AllocError>
    requires { IsAmount number }
    ensures { OnOk result (string_bytes into.new ≡ string_bytes into.old ++ (label.now ++ exact number)) }
{
    into.push_str(label)?;
    add_exact(into, number)
}

// The line of a queue.
#[tactic(auto, unfolding(crate::specs::Lines::queue_line))]
fn push_queue(into: &mut String, row: &QueueRow) -> Result<(), AllocError>
    ensures { OnOk result (string_bytes into.new ≡ string_bytes into.old ++ spec.queue_line row.now) }
{
    push_told(into, "port ", row.name)?;
    push_number(into, " ", row.queue)?;
    push_load(into, " load ", row.load)?;
    push_time(into, " delay ", row.delay)?;
    push_count(into, " backlog ", row.backlog)?;
    into.push_str("\n")?;
    Ok(())
}

// What a line says of a deadline.
fn push_deadline(
    into: &mut String,
    bound: Option<u64>,
    deadline: Option<Amount>,
) -> Result<(), AllocError>
    requires { HasDeadlineInRange deadline }
    ensures { OnOk result (string_bytes into.new ≡ string_bytes into.old ++ spec.deadline_text bound deadline) }
{
    let Some(deadline) = deadline else {
        return Ok(());
    };
    let met = if is_met(bound, deadline) {
        "met"
    } else {
        "missed"
    };
    push_exact(into, " deadline ", deadline)?;
    push_told(into, " ", met)
}

// The line of a branch.
#[tactic(auto, unfolding(crate::specs::Lines::branch_line))]
fn push_branch(into: &mut String, row: &BranchRow) -> Result<(), AllocError>
    requires { HasDeadlineInRange row.now.deadline }
    ensures { OnOk result (string_bytes into.new ≡ string_bytes into.old ++ spec.branch_line row.now) }
{
    push_told(into, "branch ", row.link)?;
    push_told(into, " ", row.port)?;
    push_time(into, " bound ", row.bound)?;
    push_deadline(into, row.bound, row.deadline)?;
    into.push_str("\n")
}

// The lines of queues.
fn push_queues(into: &mut String, rows: &[QueueRow]) -> Result<(), AllocError>
    ensures { OnOk result (string_bytes into.new ≡ string_bytes into.old ++ flat_map spec.queue_line rows.now) }
{
    for row in rows {
        push_queue(into, row)?;
    }
    Ok(())
}

// The lines of branches.
fn push_branches(into: &mut String, rows: &[BranchRow]) -> Result<(), AllocError>
    requires { All (λ row. HasDeadlineInRange row.deadline) rows.now }
    ensures { OnOk result (string_bytes into.new ≡ string_bytes into.old ++ flat_map spec.branch_line rows.now) }
{
    for row in rows {
        push_branch(into, row)?;
    }
    Ok(())
}

// The first line.
#[tactic(auto, unfolding(crate::specs::Lines::head_line))]
fn push_head(into: &mut String, report: &Report) -> Result<(), AllocError>
    ensures { OnOk result (string_bytes into.new ≡ string_bytes into.old ++ spec.head_line report.now) }
{
    push_number(into, "ports ", report.ports as u64)?;
    push_number(into, " links ", report.links as u64)?;
    push_number(into, " branches ", report.branches.len() as u64)?;
    into.push_str("\n")
}

/// The report line by line: how much there is, each queue, each branch. Times are microseconds with three digits,
/// rounded up, loads likewise, backlogs whole bits; `none` where nothing is promised. Refused only for want of memory.
#[tactic(auto, unfolding(crate::specs::Lines::report_lines))]
pub fn report_lines(alloc: Global, report: &Report) -> Result<String, AllocError>
    requires { All (λ row. HasDeadlineInRange row.deadline) report.now.branches.items }
    ensures { IfOk result (λ text. string_bytes text ≡ spec.report_lines report.now) }
{
    let mut text = String::new(alloc);
    push_head(&mut text, report)?;
    push_queues(&mut text, &report.queues)?;
    push_branches(&mut text, &report.branches)?;
    Ok(text)
}
