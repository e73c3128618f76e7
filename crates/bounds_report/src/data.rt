//! A report as JSON.

ghost use Rattle.std.specs.Prelude.{◌≡◌, [], codes, map, All, OnOk, IfOk};
ghost use Rattle.serde_json.specs.Data.{array, boolean, object, string, put as with_member};
ghost use Rattle.serde_json.specs.View.{view, items_of, members_view};
ghost use Rattle.std.specs.String.{string_bytes};
ghost use Rattle.table_cells.specs.Amounts.{IsAmount};
ghost use Rattle.bounds_report.specs.Data as spec;
ghost use Rattle.bounds_report.specs.Numbers.{exact, is_met, microseconds, or_none};
ghost use Rattle.bounds_report.specs.Ranges.{HasDeadlineInRange};

use crate::numbers::{count_text, exact_text, is_met, load_text, time_text};
use crate::rows::{BranchRow, QueueRow, Report};
use serde_json::{Map, Value, put};
use std::alloc::{AllocError, Global};
use table_cells::Amount;

// Puts a text among the members of an object.
fn put_text(
    alloc: Global,
    members: &mut Map<String, Value>,
    key: &str,
    text: String,
) -> Result<(), AllocError>
    ensures { OnOk result (members_view members.new.entries
        ≡ with_member key.now (string (string_bytes text)) (members_view members.old.entries)) }
{
    put(members, alloc, key, Value::String(text))
}

// Puts a name among the members of an object.
fn put_name(
    alloc: Global,
    members: &mut Map<String, Value>,
    key: &str,
    name: &str,
) -> Result<(), AllocError>
    ensures { OnOk result (members_view members.new.entries
        ≡ with_member key.now (string name.now) (members_view members.old.entries)) }
{
    put_text(alloc, members, key, String::from_str(alloc, name)?)
}

// Puts a time among the members of an object.
fn put_time(
    alloc: Global,
    members: &mut Map<String, Value>,
    key: &str,
    time: Option<u64>,
) -> Result<(), AllocError>
    ensures { OnOk result (members_view members.new.entries
        ≡ with_member key.now (string (or_none microseconds time)) (members_view members.old.entries)) }
{
    put_text(alloc, members, key, time_text(alloc, time)?)
}

// Puts the members of a queue into an object that has none.
#[tactic(auto, unfolding(crate::specs::Data::queue_data))]
fn put_queue(
    alloc: Global,
    members: &mut Map<String, Value>,
    row: &QueueRow,
) -> Result<(), AllocError>
    requires { members.old.entries ≡ [] }
    ensures { OnOk result (object (members_view members.new.entries) ≡ spec.queue_data row.now) }
{
    put_text(alloc, members, "backlog", count_text(alloc, row.backlog)?)?;
    put_time(alloc, members, "delay", row.delay)?;
    put_text(alloc, members, "load", load_text(alloc, row.load)?)?;
    put_name(alloc, members, "name", row.name)?;
    put(members, alloc, "queue", Value::from(row.queue))
}

// The value of a queue.
fn queue_value(alloc: Global, row: &QueueRow) -> Result<Value, AllocError>
    ensures { IfOk result (λ value. view value ≡ spec.queue_data row.now) }
{
    let mut members = Map::new(alloc);
    put_queue(alloc, &mut members, row)?;
    Ok(Value::Object(members))
}

// Puts the members of a branch that tell its deadline.
fn put_deadline(
    alloc: Global,
    members: &mut Map<String, Value>,
    bound: Option<u64>,
    deadline: Amount,
) -> Result<(), AllocError>
    requires { IsAmount deadline }
    ensures { OnOk result (members_view members.new.entries
        ≡ with_member (codes "met") (boolean (is_met bound deadline))
        (with_member (codes "deadline") (string (exact deadline)) (members_view members.old.entries))) }
{
    put_text(alloc, members, "deadline", exact_text(alloc, deadline)?)?;
    put(members, alloc, "met", Value::Bool(is_met(bound, deadline)))
}

// Puts the members of a branch into an object that has none.
#[tactic(auto, unfolding(crate::specs::Data::branch_data))]
fn put_branch(
    alloc: Global,
    members: &mut Map<String, Value>,
    row: &BranchRow,
) -> Result<(), AllocError>
    requires empty { members.old.entries ≡ [] }
    requires deadline { HasDeadlineInRange row.now.deadline }
    ensures { OnOk result (object (members_view members.new.entries) ≡ spec.branch_data row.now) }
{
    put_time(alloc, members, "bound", row.bound)?;
    put_name(alloc, members, "link", row.link)?;
    put_name(alloc, members, "port", row.port)?;
    match row.deadline {
        Some(deadline) => put_deadline(alloc, members, row.bound, deadline),
        None => Ok(()),
    }
}

// The value of a branch.
fn branch_value(alloc: Global, row: &BranchRow) -> Result<Value, AllocError>
    requires { HasDeadlineInRange row.now.deadline }
    ensures { IfOk result (λ value. view value ≡ spec.branch_data row.now) }
{
    let mut members = Map::new(alloc);
    put_branch(alloc, &mut members, row)?;
    Ok(Value::Object(members))
}

// The values of queues.
fn queue_values(alloc: Global, rows: &[QueueRow]) -> Result<Vec<Value>, AllocError>
    ensures { IfOk result (λ values. map view values.items ≡ map spec.queue_data rows.now) }
{
    let mut values = Vec::new(alloc);
    for place in 0..rows.len() {
        values.push(queue_value(alloc, &rows[place])?)?;
    }
    Ok(values)
}

// The values of branches.
fn branch_values(alloc: Global, rows: &[BranchRow]) -> Result<Vec<Value>, AllocError>
    requires { All (λ row. HasDeadlineInRange row.deadline) rows.now }
    ensures { IfOk result (λ values. map view values.items ≡ map spec.branch_data rows.now) }
{
    let mut values = Vec::new(alloc);
    for place in 0..rows.len() {
        values.push(branch_value(alloc, &rows[place])?)?;
    }
    Ok(values)
}

// The values as one array.
fn array_of(values: Vec<Value>) -> Value
    ensures { view result ≡ array (items_of (map view values.items)) }
{
    Value::Array(values)
}

// Puts the members of a report into an object that has none.
fn put_report(
    alloc: Global,
    members: &mut Map<String, Value>,
    report: &Report,
) -> Result<(), AllocError>
    requires empty { members.old.entries ≡ [] }
    requires deadlines { All (λ row. HasDeadlineInRange row.deadline) report.now.branches.items }
    ensures { OnOk result (object (members_view members.new.entries) ≡ spec.report_data report.now) }
{
    put(
        members,
        alloc,
        "branches",
        array_of(branch_values(alloc, &report.branches)?),
    )?;
    put(
        members,
        alloc,
        "ports",
        array_of(queue_values(alloc, &report.queues)?),
    )
}

// The value of a report.
fn report_value(alloc: Global, report: &Report) -> Result<Value, AllocError>
    requires { All (λ row. HasDeadlineInRange row.deadline) report.now.branches.items }
    ensures { IfOk result (λ value. view value ≡ spec.report_data report.now) }
{
    let mut members = Map::new(alloc);
    put_report(alloc, &mut members, report)?;
    Ok(Value::Object(members))
}

/// The report as one JSON value without a space, its keys in the order of their bytes, and a newline after it; numbers
/// as the lines write them. Refused only for want of memory.
#[tactic(auto, unfolding(crate::specs::Data::report_json))]
pub fn report_json(alloc: Global, report: &Report) -> Result<String, AllocError>
    requires { All (λ row. HasDeadlineInRange row.deadline) report.now.branches.items }
    ensures { IfOk result (λ text. string_bytes text ≡ spec.report_json report.now) }
{
    let value = report_value(alloc, report)?;
    let mut text = value.to_string(alloc)?;
    text.push_str("\n")?;
    Ok(text)
}
