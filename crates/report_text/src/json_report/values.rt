//! The values of flows and of queues.

ghost use Rattle.std.specs.Prelude.{◌≡◌, [], ◌∷◌, ◌++◌, map, IfOk, OnOk};
ghost use Rattle.serde_json.specs.Data.{string, put as with_member};
ghost use Rattle.serde_json.specs.View.{view, members_view};
ghost use Rattle.report_text.specs.Shown.{shown};
ghost use Rattle.report_text.specs.json_report.ReportData as data_of;

use crate::json_report::shown::shown_string;
use crate::{ShownValue, server_name};
use net_cells::cell_table::Table;
use net_cells::{Kind, live_flow, queues};
use net_model::Network;
use serde_json::{Map, Value, put};
use std::alloc::{AllocError, Global};

/// Puts a text among the members of an object.
fn put_text(
    alloc: Global,
    into: &mut Map<String, Value>,
    key: &str,
    text: &str,
) -> Result<(), AllocError>
    ensures { OnOk result (members_view into.new.entries
        ≡ with_member key.now (string text.now) (members_view into.old.entries)) }
{
    let value = Value::try_from_str(alloc, text)?;
    put(into, alloc, key, value)?;
    Ok(())
}

/// Puts the number of a cell among the members of an object, as a text.
fn put_shown<V: ShownValue, T: Table<V>>(
    alloc: Global,
    into: &mut Map<String, Value>,
    key: &str,
    table: &T,
    kind: Kind,
    a: u32,
    b: u32,
) -> Result<(), AllocError>
    ensures { OnOk result (members_view into.new.entries
        ≡ with_member key.now (string (shown (T.at table.now) kind a b)) (members_view into.old.entries)) }
{
    let text = shown_string(alloc, table, kind, a, b)?;
    put(into, alloc, key, Value::String(text))?;
    Ok(())
}

#[tactic(auto, unfolding(crate::specs::json_report::ReportData::flow_data))]
fn flow_value<V: ShownValue, T: Table<V>>(
    alloc: Global,
    name: &str,
    table: &T,
    flow: u32,
) -> Result<Value, AllocError>
    ensures { IfOk result (λ v. view v ≡ data_of.flow_data name.now (T.at table.now) flow) }
{
    let mut members = Map::new(alloc);
    put_shown(alloc, &mut members, "bound", table, Kind::Bound, flow, 0)?;
    put_text(alloc, &mut members, "name", name)?;
    put_shown(alloc, &mut members, "sfa", table, Kind::Sfa, flow, 0)?;
    put_shown(alloc, &mut members, "tfa", table, Kind::Tfa, flow, 0)?;
    Ok(Value::Object(members))
}

#[tactic(auto, unfolding(crate::specs::json_report::ReportData::queue_data))]
fn queue_value<V: ShownValue, T: Table<V>>(
    alloc: Global,
    name: &str,
    table: &T,
    server: u32,
    queue: u32,
) -> Result<Value, AllocError>
    ensures { IfOk result (λ v. view v ≡ data_of.queue_data name.now (T.at table.now) server queue) }
{
    let mut members = Map::new(alloc);
    put_shown(
        alloc,
        &mut members,
        "backlog",
        table,
        Kind::QueueBacklog,
        server,
        queue,
    )?;
    put_shown(
        alloc,
        &mut members,
        "delay",
        table,
        Kind::QueueDelay,
        server,
        queue,
    )?;
    put(&mut members, alloc, "queue", Value::from(queue))?;
    put_text(alloc, &mut members, "server", name)?;
    Ok(Value::Object(members))
}

fn push_value(into: &mut Vec<Value>, value: Value) -> Result<(), AllocError>
    ensures { OnOk result (map view into.new.items ≡ map view into.old.items ++ view value ∷ []) }
{
    into.push(value)?;
    Ok(())
}

fn push_flow<V: ShownValue, T: Table<V>>(
    alloc: Global,
    into: &mut Vec<Value>,
    net: &Network,
    table: &T,
    flow: u32,
) -> Result<(), AllocError>
    ensures { OnOk result (map view into.new.items ≡
        map view into.old.items ++ data_of.flow_at_data net.now (T.at table.now) flow) }
{
    match live_flow(net, flow) {
        Some(found) => push_value(into, flow_value(alloc, &found.name, table, flow)?),
        None => Ok(()),
    }
}

/// The values of the live flows, by number: for each an object with `bound`, `name`, `sfa` and `tfa`, all texts.
/// Refused only for want of memory.
pub fn flow_values<V: ShownValue, T: Table<V>>(
    alloc: Global,
    net: &Network,
    table: &T,
) -> Result<Vec<Value>, AllocError>
    ensures { IfOk result (λ vs. map view vs.items ≡ data_of.flows_data net.now (T.at table.now)) }
{
    let flows = net.flows();
    let mut values = Vec::new(alloc);
    for number in 0..flows.len() {
        push_flow(alloc, &mut values, net, table, number as u32)?;
    }
    Ok(values)
}

fn push_queues<V: ShownValue, T: Table<V>>(
    alloc: Global,
    into: &mut Vec<Value>,
    net: &Network,
    table: &T,
    server: u32,
) -> Result<(), AllocError>
    ensures { OnOk result (map view into.new.items ≡
        map view into.old.items ++ data_of.server_queues net.now (T.at table.now) server) }
{
    let name = server_name(net, server);
    for queue in 0..queues(net, server) {
        push_value(into, queue_value(alloc, name, table, server, queue)?)?;
    }
    Ok(())
}

/// The values of the queues, of the servers in the order of their file, and by number: for each an object with
/// `backlog`, `delay` and `server`, texts, and `queue`, a number. Refused only for want of memory.
pub fn queue_values<V: ShownValue, T: Table<V>>(
    alloc: Global,
    net: &Network,
    table: &T,
) -> Result<Vec<Value>, AllocError>
    ensures { IfOk result (λ vs. map view vs.items ≡ data_of.queues_data net.now (T.at table.now)) }
{
    let servers = net.servers();
    let mut values = Vec::new(alloc);
    for number in 0..servers.len() {
        push_queues(alloc, &mut values, net, table, number as u32)?;
    }
    Ok(values)
}
