//! The report.

ghost use Rattle.std.specs.Prelude.{◌≡◌, ◌++◌, length, IfOk, OnOk};
ghost use Rattle.std.specs.List.{flat_map, range_with_len};
ghost use Rattle.report_text.specs.Report.{live_flows, head_line, queue_lines, flow_lines, report_of};

use crate::cell_words::server_name;
use crate::lines::{push_flow_line, push_queue_line};
use crate::shown::ShownValue;
use crate::text::{push_decimal, push_text};
use net_cells::cell_table::Table;
use net_cells::{live_flow, queues};
use net_model::Network;
use std::alloc::{AllocError, Global};

/// How many flows are live.
pub fn live_count(net: &Network) -> usize
    ensures { result ≡ length (live_flows net.now) }
{
    let flows = net.flows();
    let mut count = 0;
    for number in 0..flows.len() {
        if flows[number].is_some() {
            count += 1;
        }
    }
    count
}

/// Appends the line that tells how many servers and live flows there are.
#[tactic(auto, unfolding(crate::specs::Report::head_line))]
pub fn push_head(into: &mut Vec<u8>, net: &Network) -> Result<(), AllocError>
    ensures { OnOk result (into.new.items ≡ into.old.items ++ head_line net.now) }
{
    push_text(into, "servers ")?;
    push_decimal(into, net.servers().len())?;
    push_text(into, " flows ")?;
    push_decimal(into, live_count(net))?;
    push_text(into, "\n")
}

// The lines of a server's queues.
fn push_queues<V: ShownValue, T: Table<V>>(
    into: &mut Vec<u8>,
    net: &Network,
    table: &T,
    server: u32,
) -> Result<(), AllocError>
    ensures { OnOk result (into.new.items ≡ into.old.items ++ queue_lines net.now (T.at table.now) server) }
{
    let name = server_name(net, server);
    for queue in 0..queues(net, server) {
        push_queue_line(into, name, table, server, queue)?;
    }
    Ok(())
}

fn push_servers<V: ShownValue, T: Table<V>>(
    into: &mut Vec<u8>,
    net: &Network,
    table: &T,
) -> Result<(), AllocError>
    ensures { OnOk result (into.new.items ≡
        into.old.items ++ flat_map (queue_lines net.now (T.at table.now)) (range_with_len 0 (length net.now.servers))) }
{
    let servers = net.servers();
    for number in 0..servers.len() {
        push_queues(into, net, table, number as u32)?;
    }
    Ok(())
}

// The line of a flow, where it is live.
fn push_live<V: ShownValue, T: Table<V>>(
    into: &mut Vec<u8>,
    net: &Network,
    table: &T,
    flow: u32,
) -> Result<(), AllocError>
    ensures { OnOk result (into.new.items ≡
        into.old.items ++ flow_lines net.now (T.at table.now) flow) }
{
    match live_flow(net, flow) {
        Some(found) => push_flow_line(into, &found.name, table, flow),
        None => Ok(()),
    }
}

fn push_flows<V: ShownValue, T: Table<V>>(
    into: &mut Vec<u8>,
    net: &Network,
    table: &T,
) -> Result<(), AllocError>
    ensures { OnOk result (into.new.items ≡
        into.old.items ++ flat_map (flow_lines net.now (T.at table.now)) (range_with_len 0 (length net.now.flows))) }
{
    let flows = net.flows();
    for number in 0..flows.len() {
        push_live(into, net, table, number as u32)?;
    }
    Ok(())
}

/// The report on a network, with the numbers that a table has: how many servers and live flows there are; for each
/// server, in the order of the file, and each of its queues the delay and the backlog; for each live flow, by number,
/// its delay from end to end, hop by hop, by the service along its path, and the lesser of the two. Where the table has
/// no number, nothing is printed in its place. Refused only for want of memory.
#[tactic(auto, unfolding(crate::specs::Report::report_of))]
pub fn analysis_text<V: ShownValue, T: Table<V>>(
    alloc: Global,
    net: &Network,
    table: &T,
) -> Result<Vec<u8>, AllocError>
    ensures { IfOk result (λ text. text.items ≡ report_of net.now (T.at table.now)) }
{
    let mut text = Vec::new(alloc);
    push_head(&mut text, net)?;
    push_servers(&mut text, net, table)?;
    push_flows(&mut text, net, table)?;
    Ok(text)
}
