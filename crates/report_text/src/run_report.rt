//! The report on a run.

ghost use Rattle.std.specs.Prelude.{◌≡◌, ◌++◌, length, map, IfOk, OnOk};
ghost use Rattle.std.specs.List.{flat_map, range_with_len};
ghost use Rattle.report_text.specs.RunReport.{found_of, worst_lines, peak_lines, run_report_of};

use crate::cell_words::server_name;
use crate::report::push_head;
use crate::run_found::RunFound;
use crate::run_lines::{push_breach_line, push_peak_line, push_run_line, push_worst_line};
use crate::shown::ShownValue;
use fraction128::Frac;
use net_cells::cell_table::Table;
use net_cells::{live_flow, queues};
use net_model::Network;
use std::alloc::{AllocError, Global};

// The line of a flow, where it is live.
fn push_live_worst<V: ShownValue, T: Table<V>>(
    into: &mut Vec<u8>,
    net: &Network,
    table: &T,
    worst: &[Frac],
    flow: u32,
) -> Result<(), AllocError>
    ensures { OnOk result (into.new.items ≡ into.old.items ++ worst_lines net.now (T.at table.now) worst.now flow) }
{
    match live_flow(net, flow) {
        Some(found) => push_worst_line(into, &found.name, table, worst, flow),
        None => Ok(()),
    }
}

/// Appends a line for each live flow, by number, with its worst delay beside its bound.
pub fn push_worsts<V: ShownValue, T: Table<V>>(
    into: &mut Vec<u8>,
    net: &Network,
    table: &T,
    worst: &[Frac],
) -> Result<(), AllocError>
    ensures { OnOk result (into.new.items ≡ into.old.items
        ++ flat_map (worst_lines net.now (T.at table.now) worst.now) (range_with_len 0 (length net.now.flows))) }
{
    let flows = net.flows();
    for number in 0..flows.len() {
        push_live_worst(into, net, table, worst, number as u32)?;
    }
    Ok(())
}

// The lines of a server's queues.
fn push_queue_peaks<V: ShownValue, T: Table<V>>(
    into: &mut Vec<u8>,
    net: &Network,
    table: &T,
    peaks: &[Vec<u64>],
    server: u32,
) -> Result<(), AllocError>
    ensures { OnOk result (into.new.items ≡ into.old.items
        ++ peak_lines net.now (T.at table.now) (map (λ row. row.items) peaks.now) server) }
{
    let name = server_name(net, server);
    for queue in 0..queues(net, server) {
        push_peak_line(into, name, table, peaks, server, queue)?;
    }
    Ok(())
}

/// Appends a line for each queue of each server, in the order of the file, with its greatest backlog beside its bound.
pub fn push_peaks<V: ShownValue, T: Table<V>>(
    into: &mut Vec<u8>,
    net: &Network,
    table: &T,
    peaks: &[Vec<u64>],
) -> Result<(), AllocError>
    ensures { OnOk result (into.new.items ≡ into.old.items
        ++ flat_map (peak_lines net.now (T.at table.now) (map (λ row. row.items) peaks.now))
        (range_with_len 0 (length net.now.servers))) }
{
    let servers = net.servers();
    for number in 0..servers.len() {
        push_queue_peaks(into, net, table, peaks, number as u32)?;
    }
    Ok(())
}

/// The report on a run that was simulated, with the bounds that a table has: how many servers and live flows there are;
/// how many packets entered, and when the run ends; for each live flow, by number, its worst delay beside its bound; for
/// each server, in the order of the file, and each of its queues the greatest backlog beside its bound; and what the run
/// breaks first. Where a number is missing, nothing is printed in its place. Refused only for want of memory.
#[tactic(auto, unfolding(crate::specs::RunReport::run_report_of))]
pub fn run_text<V: ShownValue, T: Table<V>>(
    alloc: Global,
    net: &Network,
    table: &T,
    found: &RunFound,
) -> Result<Vec<u8>, AllocError>
    ensures { IfOk result (λ text. text.items ≡ run_report_of net.now (T.at table.now) (found_of found.now)) }
{
    let mut text = Vec::new(alloc);
    push_head(&mut text, net)?;
    push_run_line(&mut text, found.packets, &found.end)?;
    push_worsts(&mut text, net, table, &found.worst)?;
    push_peaks(&mut text, net, table, &found.peaks)?;
    push_breach_line(&mut text, net, &found.breach)?;
    Ok(text)
}
