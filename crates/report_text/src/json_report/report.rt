//! The report, in its forms.

ghost use Rattle.std.specs.Prelude.{◌≡◌, false, map, IfOk};
ghost use Rattle.serde_json.specs.Data.{array};
ghost use Rattle.serde_json.specs.View.{view, items_of};
ghost use Rattle.serde_json.specs.Written.{has_float};
ghost use Rattle.report_text.specs.json_report.Forms.{line_of, report_in};
ghost use Rattle.report_text.specs.json_report.ReportData.{report_data};

use crate::json_report::form::Form;
use crate::json_report::values::{flow_values, queue_values};
use crate::{ShownValue, analysis_text};
use net_cells::cell_table::Table;
use net_model::Network;
use serde_json::{Map, Value, put};
use std::alloc::{AllocError, Global};

/// The values as one array.
pub fn array_of(values: Vec<Value>) -> Value
    ensures { view result ≡ array (items_of (map view values.items)) }
{
    Value::Array(values)
}

/// The text of a value without a float: no space, keys in the order of their bytes, and one newline after it. Refused
/// only for want of memory. (Own choice.)
#[tactic(auto, unfolding(crate::specs::json_report::Forms::line_of))]
pub fn json_line(alloc: Global, value: &Value) -> Result<Vec<u8>, AllocError>
    requires { has_float (view value.now) ≡ false }
    ensures { IfOk result (λ text. text.items ≡ line_of (view value.now)) }
{
    let mut text = value.to_vec(alloc)?;
    text.push(b'\n')?;
    Ok(text)
}

fn report_value<V: ShownValue, T: Table<V>>(
    alloc: Global,
    net: &Network,
    table: &T,
) -> Result<Value, AllocError>
    ensures { IfOk result (λ v. view v ≡ report_data net.now (T.at table.now)) }
{
    let mut members = Map::new(alloc);
    let flows = array_of(flow_values(alloc, net, table)?);
    put(&mut members, alloc, "flows", flows)?;
    let queues = array_of(queue_values(alloc, net, table)?);
    put(&mut members, alloc, "queues", queues)?;
    Ok(Value::Object(members))
}

fn json_text<V: ShownValue, T: Table<V>>(
    alloc: Global,
    net: &Network,
    table: &T,
) -> Result<Vec<u8>, AllocError>
    ensures { IfOk result (λ text. text.items ≡ line_of (report_data net.now (T.at table.now))) }
{
    let value = report_value(alloc, net, table)?;
    json_line(alloc, &value)
}

/// The report on a network in a form, with the numbers of a table: line by line, or an object with `flows` and `queues`.
/// Refused only for want of memory.
pub fn text_in<V: ShownValue, T: Table<V>>(
    alloc: Global,
    form: Form,
    net: &Network,
    table: &T,
) -> Result<Vec<u8>, AllocError>
    ensures { IfOk result (λ text. text.items ≡ report_in form net.now (T.at table.now)) }
{
    match form {
        Form::Lines => analysis_text(alloc, net, table),
        Form::Json => json_text(alloc, net, table),
    }
}
