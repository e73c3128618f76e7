//! The touched cells of whole paths. Only those of flows are looked at that have a candidate or a touched cell.

ghost use Rattle.std.specs.Prelude.{IfOk, OnOk, IsTrue, Contains};
ghost use Rattle.cell_rules.specs.declared.site.Site.TheVariants as site;
ghost use Rattle.cell_rules.specs.Sites.{IsSameBut};
ghost use Rattle.cell_rules.specs.Finding.{AreBareAtFirst};
ghost use Rattle.cell_rules.specs.Marks.{KeepsMarks, MarksOwn, MarksPassing, MarksPaths, AreOfPaths, IsLookedAt, StandSomewhere, Searches};
ghost use Rattle.cell_rules.specs.cell_changes.Slots.{HasSlot};
ghost use Rattle.net_model.specs.Networks.{Net};
ghost use Rattle.net_cells.specs.declared.cell.Cell.{Cell};
ghost use Rattle.net_cells.specs.Cells.{has_cell};
ghost use Rattle.net_cells.specs.Formulas.{leaves};
ghost use Rattle.net_cells.specs.CellFormulas.{formula};

use crate::finding::{is_touched, note};
use crate::lists::MOST_FLOWS;
use crate::marks::{is_marked, mark, mark_if};
use crate::site::{Site, passes};
use net_cells::Cell;
use net_model::Network;
use std::alloc::{AllocError, Global};

// Marks the numbers of some cells.
fn mark_own(marks: &mut Vec<bool>, cells: &[Cell])
    ensures kept { KeepsMarks marks.old.items marks.new.items }
    ensures own { MarksOwn cells.now marks.new.items }
{
    for cell in cells {
        mark(marks, cell.a);
    }
}

// Marks the flows that pass a server.
fn mark_passing(marks: &mut Vec<bool>, net: &Network, server: u32)
    ensures kept { KeepsMarks marks.old.items marks.new.items }
    ensures passing { MarksPassing net.now server marks.new.items 256 }
{
    for flow in 0..MOST_FLOWS {
        mark_if(marks, passes(net, flow, server), flow);
    }
}

// The flows that pass a server that has changed.
fn flows_at(alloc: Global, net: &Network, server: u32) -> Result<Vec<bool>, AllocError>
    ensures { IfOk result (λ marks. (old : Net) → MarksPaths (site.Server server) old net.now marks.items) }
{
    net.keeps();
    let mut marks = vec![in alloc; false; MOST_FLOWS as usize]?;
    mark_passing(&mut marks, net, server);
    Ok(marks)
}

// A flow that has changed.
fn flow_alone(alloc: Global, flow: u32) -> Result<Vec<bool>, AllocError>
    ensures { IfOk result (λ marks. (old net : Net) → MarksPaths (site.Flow flow) old net marks.items) }
{
    let mut marks = vec![in alloc; false; MOST_FLOWS as usize]?;
    mark(&mut marks, flow);
    Ok(marks)
}

/// The flows of whose whole path a cell may be made of other things in two networks that differ at one place alone.
fn first_flows(alloc: Global, net: &Network, site: Site) -> Result<Vec<bool>, AllocError>
    ensures { IfOk result (λ marks. (old : Net) → MarksPaths site old net.now marks.items) }
{
    match site {
        Site::Anywhere => Ok(Vec::new(alloc)),
        Site::Server(server) => {
            let marks = flows_at(alloc, net, server)?;
            Ok(marks)
        }
        Site::Flow(flow) => {
            let marks = flow_alone(alloc, flow)?;
            Ok(marks)
        }
    }
}

// Looks at a cell of a whole path, if its flow is marked.
fn look_at(
    alloc: Global,
    old: &Network,
    net: &Network,
    site: Site,
    cell: Cell,
    marks: &[bool],
    flags: &mut Vec<bool>,
    touched: &mut Vec<Cell>,
) -> Result<(), AllocError>
    requires bare { AreBareAtFirst flags.old.items touched.old.items }
    requires cell { IsTrue (has_cell net.now cell) }
    requires same { IsSameBut site old.now net.now }
    requires place { HasSlot cell }
    requires places { (c : Cell) → Contains (leaves (formula net.now cell)) c → HasSlot c }
    ensures { OnOk result (IsLookedAt old.now net.now marks.now cell
        flags.old.items flags.new.items touched.old.items touched.new.items) }
{
    if !is_marked(marks, cell.a) {
        return Ok(());
    }
    let here = is_touched(alloc, old, net, site, cell, flags, touched)?;
    note(flags, touched, cell, here)
}

// Searches those of the marked flows.
fn search_marked(
    cells: &[Cell],
    marks: &[bool],
    alloc: Global,
    site: Site,
    old: &Network,
    net: &Network,
    flags: &mut Vec<bool>,
    touched: &mut Vec<Cell>,
) -> Result<(), AllocError>
    requires place { StandSomewhere net.now cells.now }
    requires paths { AreOfPaths cells.now }
    requires candidates { MarksPaths site old.now net.now marks.now }
    requires own { MarksOwn touched.old.items marks.now }
    requires bare { AreBareAtFirst flags.old.items touched.old.items }
    requires same { IsSameBut site old.now net.now }
    ensures { OnOk result (Searches old.now net.now cells.now
        flags.old.items touched.old.items flags.new.items touched.new.items) }
{
    net.keeps();
    for place in 0..cells.len() {
        look_at(alloc, old, net, site, cells[place], marks, flags, touched)?;
    }
    Ok(())
}

/// Searches the cells of whole paths, which stand behind those of all servers: finds the touched ones.
pub(crate) fn search_paths(
    cells: &[Cell],
    alloc: Global,
    site: Site,
    old: &Network,
    net: &Network,
    touched: &mut Vec<Cell>,
    flags: &mut Vec<bool>,
) -> Result<(), AllocError>
    requires paths { AreOfPaths cells.now }
    requires place { StandSomewhere net.now cells.now }
    requires same { IsSameBut site old.now net.now }
    requires bare { AreBareAtFirst flags.old.items touched.old.items }
    ensures { OnOk result (Searches old.now net.now cells.now
        flags.old.items touched.old.items flags.new.items touched.new.items) }
{
    let mut marks = first_flows(alloc, net, site)?;
    mark_own(&mut marks, touched);
    search_marked(cells, &marks, alloc, site, old, net, flags, touched)
}
