//! Servers at which cells may be touched, and flows of whose paths cells may be, marked by lists of flags at their numbers.
//! Those past a list's end are all marked.

ghost use Rattle.std.specs.Prelude.{◌≡◌, IfOk, Contains, length, slice_set, true};
ghost use Rattle.net_model.specs.Networks.{Net};
ghost use Rattle.net_cells.specs.declared.cell.Cell.{Cell};
ghost use Rattle.net_cells.specs.Numbered as at;
ghost use Rattle.cell_rules.specs.cell_changes.Slots.{HasSlot};
ghost use Rattle.cell_rules.specs.declared.site.Site.TheVariants as site;
ghost use Rattle.cell_rules.specs.Marks as spec;
ghost use Rattle.cell_rules.specs.Marks.{KeepsMarks, MarksEach, MarksPath, MarksBehind, MarksNext, MarksOnward, MarksCandidates};

use crate::cell_changes::slot;
use crate::lists::{MOST_FLOWS, is_by_links};
use crate::site::Site;
use net_cells::{Cell, Kind, live_flow, server_of_hop};
use net_model::Network;
use std::alloc::{AllocError, Global};

/// How many servers a network has at most.
const MOST_SERVERS: usize = 64;

/// Whether a server, or a flow, is marked.
pub(crate) fn is_marked(marks: &[bool], number: u32) -> bool
    ensures { result ≡ spec.is_marked marks.now number }
{
    let place = number as usize;
    if place < marks.len() {
        marks[place]
    } else {
        true
    }
}

/// Marks a server, or a flow.
pub(crate) fn mark(marks: &mut Vec<bool>, number: u32)
    ensures { marks.new.items ≡ slice_set marks.old.items number true }
{
    let place = number as usize;
    if place < marks.len() {
        marks[place] = true;
    }
}

/// Marks a server, or a flow, in a case.
pub(crate) fn mark_if(marks: &mut Vec<bool>, is_so: bool, number: u32)
    ensures kept { KeepsMarks marks.old.items marks.new.items }
    ensures here { is_so ≡ true → spec.is_marked marks.new.items number ≡ true }
{
    if is_so {
        mark(marks, number);
    }
}

// ---- where two networks differ
// Marks some servers.
fn mark_each(marks: &mut Vec<bool>, servers: &[u32])
    ensures kept { KeepsMarks marks.old.items marks.new.items }
    ensures each { MarksEach servers.now marks.new.items }
{
    for server in servers {
        mark(marks, *server);
    }
}

// Marks the servers that a flow passes.
fn mark_path(marks: &mut Vec<bool>, net: &Network, flow: u32)
    ensures kept { KeepsMarks marks.old.items marks.new.items }
    ensures path { MarksPath net.now flow marks.new.items }
{
    match live_flow(net, flow) {
        Some(found) => mark_each(marks, &found.path),
        None => (),
    }
}

// Marks the servers that stand right behind one.
fn mark_behind(marks: &mut Vec<bool>, path: &[u32], server: u32)
    ensures kept { KeepsMarks marks.old.items marks.new.items }
    ensures behind { MarksBehind path.now server marks.new.items (length path.now) }
{
    for hop in 1..path.len() {
        mark_if(marks, path[hop - 1] == server, path[hop]);
    }
}

// On the path of a flow.
fn mark_behind_on(marks: &mut Vec<bool>, net: &Network, flow: u32, server: u32)
    ensures kept { KeepsMarks marks.old.items marks.new.items }
    ensures behind { MarksBehind (at.path net.now flow) server marks.new.items (at.hops net.now flow) }
{
    match live_flow(net, flow) {
        Some(found) => mark_behind(marks, &found.path, server),
        None => (),
    }
}

// Marks the servers to which flows go on from one.
fn mark_next(marks: &mut Vec<bool>, net: &Network, server: u32)
    ensures kept { KeepsMarks marks.old.items marks.new.items }
    ensures next { MarksNext net.now server marks.new.items 256 }
{
    for flow in 0..MOST_FLOWS {
        mark_behind_on(marks, net, flow, server);
    }
}

// Where a server has changed: that server, and in version 2 those that flows enter over its link.
fn marks_of_server(alloc: Global, net: &Network, server: u32) -> Result<Vec<bool>, AllocError>
    ensures { IfOk result (λ marks. (old : Net) → MarksCandidates (site.Server server) old net.now marks.items) }
{
    net.keeps();
    let mut marks = vec![in alloc; false; MOST_SERVERS]?;
    mark(&mut marks, server);
    if is_by_links(net) {
        mark_next(&mut marks, net, server);
    }
    Ok(marks)
}

// Where a flow has changed: those that it passes in one of the two networks.
fn marks_of_flow(
    alloc: Global,
    old: &Network,
    net: &Network,
    flow: u32,
) -> Result<Vec<bool>, AllocError>
    ensures { IfOk result (λ marks. MarksCandidates (site.Flow flow) old.now net.now marks.items) }
{
    let mut marks = vec![in alloc; false; MOST_SERVERS]?;
    mark_path(&mut marks, old, flow);
    mark_path(&mut marks, net, flow);
    Ok(marks)
}

/// The servers at which a cell may be made of other things in two networks that differ at one place alone.
pub(crate) fn first_marks(
    alloc: Global,
    old: &Network,
    net: &Network,
    site: Site,
) -> Result<Vec<bool>, AllocError>
    ensures { IfOk result (λ marks. MarksCandidates site old.now net.now marks.items) }
{
    match site {
        Site::Anywhere => Ok(Vec::new(alloc)),
        Site::Server(server) => {
            let marks = marks_of_server(alloc, net, server)?;
            Ok(marks)
        }
        Site::Flow(flow) => marks_of_flow(alloc, old, net, flow),
    }
}

// ---- further on
// Whether a cell is what leaves a hop, and flagged.
fn goes_on(cell: Cell, flags: &[bool]) -> bool
    requires room { length flags.now ≡ 36352 }
    requires place { HasSlot cell }
    ensures { result ≡ spec.goes_on flags.now cell }
{
    match cell.kind {
        Kind::Out => flags[slot(cell) as usize],
        _ => false,
    }
}

/// Marks the servers at which flagged cells of some go on: where what leaves a hop arrives.
pub(crate) fn mark_onward(marks: &mut Vec<bool>, net: &Network, cells: &[Cell], flags: &[bool])
    requires room { length flags.now ≡ 36352 }
    requires places { (c : Cell) → Contains cells.now c → HasSlot c }
    ensures kept { KeepsMarks marks.old.items marks.new.items }
    ensures onward { MarksOnward net.now cells.now flags.now marks.new.items }
{
    for cell in cells {
        let next = server_of_hop(net, cell.a, cell.b + 1);
        mark_if(marks, goes_on(*cell, flags), next);
    }
}
