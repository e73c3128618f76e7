//! The rows of a report.

ghost use Rattle.std.specs.Prelude.{◌≡◌, ◌<◌, ◌^◌, ◌++◌, [], None, length, map, get_or, option_map, All, IfSome, IfOk, OnOk};
ghost use Rattle.tree_network.specs.Networks.{IsNetwork, PortIsInRange};
ghost use Rattle.document_tables.specs.Documents.{IsBranchOf, document_view, end_view};
ghost use Rattle.tree_bounds.specs.Tables.{IsTableOf, items_of, bounds_in};
ghost use Rattle.bounds_command.specs.Reports as spec;
ghost use Rattle.bounds_command.specs.Reports.{queue_view, branch_view};

use crate::loads::{load_at, rates_of};
use crate::refusals::name_of;
use arrival_lines::Queue;
use bounds_report::{BranchRow, QueueRow, Report, is_met};
use document_tables::{BranchEnd, Document};
use std::alloc::{AllocError, Global};
use tree_bounds::Table;
use tree_network::{Network, Port};

fn delay_in(found: Option<Queue>) -> Option<u64>
    ensures { result ≡ option_map (λ q. q.delay) found }
{
    match found {
        Some(queue) => Some(queue.delay),
        None => None,
    }
}

fn backlog_in(found: Option<Queue>) -> Option<u64>
    ensures { result ≡ option_map (λ q. q.backlog) found }
{
    match found {
        Some(queue) => Some(queue.backlog),
        None => None,
    }
}

// The row of a queue.
fn queue_row<'a>(
    name: &'a str,
    port: &Port,
    queue: usize,
    rates: u128,
    found: Option<Queue>,
) -> QueueRow<'a>
    requires port { PortIsInRange port.now }
    requires small { rates < 2 ^ 100 }
    ensures { queue_view result ≡ spec.queue_text name.now port.now queue rates found }
{
    QueueRow {
        name,
        queue: queue as u64,
        load: load_at(port, rates),
        delay: delay_in(found),
        backlog: backlog_in(found),
    }
}

// Puts the rows of a port's queues behind others.
fn push_port<'a>(
    into: &mut Vec<QueueRow<'a>>,
    name: &'a str,
    port: &Port,
    rates: &[u128],
    found: &[Option<Queue>],
) -> Result<(), AllocError>
    requires port { PortIsInRange port.now }
    requires count { length rates.now ≡ length found.now }
    requires small { All (λ rate. rate < 2 ^ 100) rates.now }
    ensures { OnOk result (map queue_view into.new.items ≡ map queue_view into.old.items
        ++ spec.queues_with name.now port.now (λ q. get_or rates.now q 0) (λ q. get_or found.now q None)
        (length found.now)) }
{
    for queue in 0..found.len() {
        into.push(queue_row(name, port, queue, rates[queue], found[queue]))?;
    }
    Ok(())
}

// What is promised of the queues of a port.
fn found_at(table: &Table, port: usize) -> &[Option<Queue>]
    requires { port < length table.now.rows.items }
    ensures { result.now ≡ get_or (items_of table.now.rows.items) port [] }
{
    &table.rows[port]
}

// The rates of the links at the queues of a port.
fn rates_at(rates: &[Vec<u128>], port: usize) -> &[u128]
    requires { port < length rates.now }
    ensures { result.now ≡ get_or (items_of rates.now) port [] }
{
    &rates[port]
}

// The rows of all queues.
fn queue_rows<'a>(
    alloc: Global,
    document: &'a Document,
    table: &Table,
) -> Result<Vec<QueueRow<'a>>, AllocError>
    requires network { IsNetwork document.now.network }
    requires table { IsTableOf document.now.network table.now }
    ensures { IfOk result
        (λ rows. map queue_view rows.items
        ≡ spec.all_queues (document_view document.now) document.now.network table.now) }
{
    let ports = &document.network.ports;
    let rates = rates_of(alloc, &document.network)?;
    let mut rows = Vec::new(alloc);
    for number in 0..ports.len() {
        let name = name_of(&document.port_names, number);
        push_port(
            &mut rows,
            name,
            &ports[number],
            rates_at(&rates, number),
            found_at(table, number),
        )?;
    }
    Ok(rows)
}

// A bound that has 64 bits.
fn short(bound: Option<u128>) -> Option<u64>
    requires { IfSome bound (λ b. b < 2 ^ 64) }
    ensures { result ≡ bound }
{
    match bound {
        Some(bound) => Some(bound as u64),
        None => None,
    }
}

// The last port of a branch.
fn last_port(network: &Network, end: &BranchEnd) -> usize
    requires { IsBranchOf network.now end.now }
    ensures { result ≡ spec.last_port network.now (end_view end.now) }
{
    network.links[end.link].nodes[end.node].port as usize
}

// The bound of a node of a link.
fn bound_at(table: &Table, link: usize, node: usize) -> Option<u64>
    requires link { link < length table.now.bounds.items }
    requires node { node < length (bounds_in table.now link) }
    requires small { IfSome (get_or (bounds_in table.now link) node None) (λ b. b < 2 ^ 64) }
    ensures { result ≡ get_or (bounds_in table.now link) node None }
{
    short(table.bounds[link][node])
}

// The row of a branch.
fn branch_row<'a>(document: &'a Document, table: &Table, end: &BranchEnd) -> BranchRow<'a>
    requires network { IsNetwork document.now.network }
    requires table { IsTableOf document.now.network table.now }
    requires end { IsBranchOf document.now.network end.now }
    ensures { branch_view result
        ≡ spec.branch_text (document_view document.now) document.now.network table.now (end_view end.now) }
{
    let port = last_port(&document.network, end);
    BranchRow {
        link: name_of(&document.link_names, end.link),
        port: name_of(&document.port_names, port),
        bound: bound_at(table, end.link, end.node),
        deadline: end.deadline,
    }
}

// The rows of all branches.
fn branch_rows<'a>(
    alloc: Global,
    document: &'a Document,
    table: &Table,
) -> Result<Vec<BranchRow<'a>>, AllocError>
    requires network { IsNetwork document.now.network }
    requires table { IsTableOf document.now.network table.now }
    requires ends { All (IsBranchOf document.now.network) document.now.branches.items }
    ensures { IfOk result (λ rows. map branch_view rows.items
        ≡ map (spec.branch_text (document_view document.now) document.now.network table.now)
        (document_view document.now).branches) }
{
    let mut rows = Vec::with_capacity(alloc, document.branches.len())?;
    for end in &document.branches {
        rows.push(branch_row(document, table, end))?;
    }
    Ok(rows)
}

/// The report on the bounds of a document's network.
pub(crate) fn report_of<'a>(
    alloc: Global,
    document: &'a Document,
    table: &Table,
) -> Result<Report<'a>, AllocError>
    requires network { IsNetwork document.now.network }
    requires table { IsTableOf document.now.network table.now }
    requires ends { All (IsBranchOf document.now.network) document.now.branches.items }
    ensures { IfOk result (spec.IsReportOf (document_view document.now) document.now.network table.now) }
{
    Ok(Report {
        ports: document.network.ports.len(),
        links: document.network.links.len(),
        queues: queue_rows(alloc, document, table)?,
        branches: branch_rows(alloc, document, table)?,
    })
}

// Whether a branch misses its deadline.
fn is_missed(row: &BranchRow) -> bool
    ensures { result ≡ spec.is_missed row.now }
{
    match row.deadline {
        Some(deadline) => !is_met(row.bound, deadline),
        None => false,
    }
}

/// Whether some branch misses its deadline.
pub(crate) fn some_missed(rows: &[BranchRow]) -> bool
    ensures { result ≡ spec.some_missed rows.now }
{
    rows.iter().any(|row| is_missed(row))
}
