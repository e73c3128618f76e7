//! The report on a list of edits as JSON.

ghost use Rattle.std.specs.Prelude.{◌≡◌, map, IfOk};
ghost use Rattle.serde_json.specs.View.{view};
ghost use Rattle.report_text.specs.json_report.Forms.{line_of};
ghost use Rattle.commands.specs.edit_report.EditReport.{said_data, edit_report_data};
ghost use Rattle.commands.specs.edit_report.Said.{Made, Refused, said_view};

use crate::edit_report::said::Said;
use net_cells::cell_table::Table;
use net_model::Network;
use report_text::ShownValue;
use report_text::json_report::{array_of, flow_values, json_line, queue_values};
use serde_json::{Map, Value, put};
use std::alloc::{AllocError, Global};

#[tactic(auto, unfolding(crate::specs::edit_report::EditReport::said_data))]
fn made_value(alloc: Global, cells: u32) -> Result<Value, AllocError>
    ensures { IfOk result (λ v. view v ≡ said_data (Made cells)) }
{
    let mut members = Map::new(alloc);
    put(&mut members, alloc, "cells", Value::from(cells))?;
    put(&mut members, alloc, "ok", Value::from(true))?;
    Ok(Value::Object(members))
}

#[tactic(auto, unfolding(crate::specs::edit_report::EditReport::said_data))]
fn refused_value(alloc: Global, reason: &str) -> Result<Value, AllocError>
    ensures { IfOk result (λ v. view v ≡ said_data (Refused reason.now)) }
{
    let mut members = Map::new(alloc);
    put(&mut members, alloc, "ok", Value::from(false))?;
    let reason = Value::try_from_str(alloc, reason)?;
    put(&mut members, alloc, "refused", reason)?;
    Ok(Value::Object(members))
}

fn said_value(alloc: Global, said: &Said) -> Result<Value, AllocError>
    ensures { IfOk result (λ v. view v ≡ said_data (said_view said.now)) }
{
    match said {
        Said::Made(cells) => made_value(alloc, *cells),
        Said::Refused(reason) => refused_value(alloc, reason),
    }
}

fn said_values(alloc: Global, said: &[Said]) -> Result<Vec<Value>, AllocError>
    ensures { IfOk result (λ vs. map view vs.items ≡ map said_data (map said_view said.now)) }
{
    let mut values = Vec::new(alloc);
    for one in said {
        values.push(said_value(alloc, one)?)?;
    }
    Ok(values)
}

fn report_value<V: ShownValue, T: Table<V>>(
    alloc: Global,
    net: &Network,
    table: &T,
    said: &[Said],
) -> Result<Value, AllocError>
    ensures { IfOk result (λ v. view v ≡ edit_report_data net.now (T.at table.now) (map said_view said.now)) }
{
    let mut members = Map::new(alloc);
    let edits = array_of(said_values(alloc, said)?);
    put(&mut members, alloc, "edits", edits)?;
    let flows = array_of(flow_values(alloc, net, table)?);
    put(&mut members, alloc, "flows", flows)?;
    let queues = array_of(queue_values(alloc, net, table)?);
    put(&mut members, alloc, "queues", queues)?;
    Ok(Value::Object(members))
}

/// The report as JSON: an object with `edits`, an array of what is said of each, and with what the report on the network
/// after them has. Refused only for want of memory.
pub(crate) fn json_text<V: ShownValue, T: Table<V>>(
    alloc: Global,
    net: &Network,
    table: &T,
    said: &[Said],
) -> Result<Vec<u8>, AllocError>
    ensures { IfOk result (λ text. text.items ≡ line_of (edit_report_data net.now (T.at table.now) (map said_view said.now))) }
{
    let value = report_value(alloc, net, table, said)?;
    json_line(alloc, &value)
}
