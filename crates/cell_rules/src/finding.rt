//! The touched cells of an edit, and those that are gone.

ghost use Rattle.std.specs.Prelude.{◌≡◌, ◌≤◌, ℕ, IfOk, OnOk, IsTrue, Contains, length, slice_index_or, false};
ghost use Rattle.std.specs.List.{flat_map};
ghost use Rattle.net_model.specs.Orders.{IsOrder};
ghost use Rattle.net_cells.specs.Cells.{has_cell, path_kinds};
ghost use Rattle.net_cells.specs.Order.{evaluation_order, path_cells, server_cells};
ghost use Rattle.net_cells.specs.Formulas.{leaves};
ghost use Rattle.net_cells.specs.CellFormulas.{formula};
ghost use Rattle.net_cells.specs.declared.cell.Cell.{Cell};
ghost use Rattle.cell_rules.specs.cell_changes.Changes.{TouchedOf};
ghost use Rattle.cell_rules.specs.cell_changes.Slots.{HasSlot};
ghost use Rattle.cell_rules.specs.Sites.{IsSameBut};
ghost use Rattle.cell_rules.specs.Finding.{AreBareAtFirst, IsBareAtFirst, IsNoted, IsTold, TellsChanged, gone_of, is_flagged};
ghost use Rattle.cell_rules.specs.Marks.{KeepsMarks, MarksCandidates, StandSomewhere, Searches, SearchesMarked, ReachesOn};

use crate::cell_changes::{SLOTS, slot};
use crate::marks::{first_marks, is_marked, mark_onward};
use crate::path_search::search_paths;
use crate::rule::{has_cell, same_rule_by};
use crate::site::{Site, is_candidate, keeps_flows, others_keep_their_rule};
use net_cells::{Cell, cells, operands};
use net_model::Network;
use std::alloc::{AllocError, Global};

// So many flags, none of them set.
fn no_flags(alloc: Global, count: usize) -> Result<Vec<bool>, AllocError>
    ensures room { IfOk result (λ flags. length flags.items ≡ count) }
    ensures none { IfOk result (λ flags. (i : ℕ) → slice_index_or flags.items i false ≡ false) }
{
    let flags = vec![in alloc; false; count]?;
    Ok(flags)
}

// Whether one of some cells is flagged.
fn one_flagged(flags: &[bool], cells: &[Cell]) -> bool
    requires room { length flags.now ≡ 36352 }
    requires places { (c : Cell) → Contains cells.now c → HasSlot c }
    ensures { result ≡ is_flagged flags.now cells.now }
{
    for cell in cells {
        if flags[slot(*cell) as usize] {
            return true;
        }
    }
    false
}

// Whether a cell is made of a flagged one. Where none was touched so far there is none.
fn reads_flagged(
    alloc: Global,
    net: &Network,
    cell: Cell,
    flags: &[bool],
    touched: &[Cell],
) -> Result<bool, AllocError>
    requires room { length flags.now ≡ 36352 }
    requires places { (c : Cell) → Contains (leaves (formula net.now cell)) c → HasSlot c }
    requires none { IsBareAtFirst flags.now touched.now }
    ensures { IfOk result (λ reads. reads ≡ is_flagged flags.now (leaves (formula net.now cell))) }
{
    if touched.is_empty() {
        return Ok(false);
    }
    let parts = operands(alloc, cell, net)?;
    Ok(one_flagged(flags, &parts))
}

// Whether a cell is changed: one of the candidates, and it is made of other things.
fn is_changed(site: Site, old: &Network, net: &Network, cell: Cell) -> bool
    requires cell { IsTrue (has_cell net.now cell) }
    requires same { IsSameBut site old.now net.now }
    ensures { TellsChanged old.now net.now cell result }
{
    others_keep_their_rule();
    if is_candidate(site, old, net, cell) {
        !same_rule_by(keeps_flows(site), cell, old, net)
    } else {
        false
    }
}

/// Whether a cell is touched: it is changed, or made of a flagged one.
pub(crate) fn is_touched(
    alloc: Global,
    old: &Network,
    net: &Network,
    site: Site,
    cell: Cell,
    flags: &[bool],
    touched: &[Cell],
) -> Result<bool, AllocError>
    requires room { length flags.now ≡ 36352 }
    requires cell { IsTrue (has_cell net.now cell) }
    requires same { IsSameBut site old.now net.now }
    requires places { (c : Cell) → Contains (leaves (formula net.now cell)) c → HasSlot c }
    requires none { IsBareAtFirst flags.now touched.now }
    ensures { IfOk result (IsTold old.now net.now flags.now cell) }
{
    if is_changed(site, old, net, cell) {
        return Ok(true);
    }
    reads_flagged(alloc, net, cell, flags, touched)
}

/// Flags a touched cell, and puts it after the others.
pub(crate) fn note(
    flags: &mut Vec<bool>,
    touched: &mut Vec<Cell>,
    cell: Cell,
    is_touched: bool,
) -> Result<(), AllocError>
    requires room { length flags.old.items ≡ 36352 }
    requires place { HasSlot cell }
    ensures { OnOk result (IsNoted cell is_touched
        flags.old.items flags.new.items touched.old.items touched.new.items) }
{
    if is_touched {
        flags[slot(cell) as usize] = true;
        touched.push(cell)?;
    }
    Ok(())
}

// Searches some cells that stand right behind those that were searched: finds the touched ones.
fn search(
    alloc: Global,
    old: &Network,
    net: &Network,
    site: Site,
    cells: &[Cell],
    flags: &mut Vec<bool>,
    touched: &mut Vec<Cell>,
) -> Result<(), AllocError>
    requires bare { AreBareAtFirst flags.old.items touched.old.items }
    requires same { IsSameBut site old.now net.now }
    requires place { StandSomewhere net.now cells.now }
    ensures room { OnOk result (length flags.new.items ≡ 36352) }
    ensures searched { OnOk result (Searches old.now net.now cells.now
        flags.old.items touched.old.items flags.new.items touched.new.items) }
{
    net.keeps();
    for place in 0..cells.len() {
        let cell = cells[place];
        let here = is_touched(alloc, old, net, site, cell, flags, touched)?;
        note(flags, touched, cell, here)?;
    }
    Ok(())
}

// The cells of the whole paths of a network.
fn path_cells(alloc: Global, net: &Network) -> Result<Vec<Cell>, AllocError>
    ensures { IfOk result (λ v. v.items ≡ flat_map (path_cells net.now) path_kinds) }
{
    let paths = cells(alloc, net, &[])?;
    Ok(paths)
}

// The cells at a server: those by an order of that server alone, without those of the whole paths, which are so many.
fn server_cells(
    alloc: Global,
    net: &Network,
    server: u32,
    paths: usize,
) -> Result<Vec<Cell>, AllocError>
    requires { paths ≡ length (flat_map (path_cells net.now) path_kinds) }
    ensures { IfOk result (λ v. v.items ≡ server_cells net.now server) }
{
    let mut here = cells(alloc, net, &[server])?;
    let count = here.len().saturating_sub(paths);
    here.truncate(count);
    Ok(here)
}

// Searches the cells at a server, if it is marked, and marks those servers at which touched ones go on. No other server
// has a touched cell.
fn search_server(
    alloc: Global,
    old: &Network,
    net: &Network,
    site: Site,
    server: u32,
    paths: usize,
    marks: &mut Vec<bool>,
    flags: &mut Vec<bool>,
    touched: &mut Vec<Cell>,
) -> Result<(), AllocError>
    requires bare { AreBareAtFirst flags.old.items touched.old.items }
    requires same { IsSameBut site old.now net.now }
    requires place { StandSomewhere net.now (server_cells net.now server) }
    requires paths { paths ≡ length (flat_map (path_cells net.now) path_kinds) }
    requires marked { MarksCandidates site old.now net.now marks.old.items }
    ensures room { OnOk result (length flags.new.items ≡ 36352) }
    ensures kept { OnOk result (KeepsMarks marks.old.items marks.new.items) }
    ensures searched { OnOk result (SearchesMarked old.now net.now (server_cells net.now server) marks.old.items
        flags.old.items touched.old.items flags.new.items touched.new.items) }
    ensures reached { OnOk result (ReachesOn old.now net.now (server_cells net.now server)
        flags.old.items touched.old.items marks.old.items marks.new.items) }
{
    net.keeps();
    if !is_marked(marks, server) {
        return Ok(());
    }
    let here = server_cells(alloc, net, server, paths)?;
    search(alloc, old, net, site, &here, flags, touched)?;
    mark_onward(marks, net, &here, flags);
    Ok(())
}

/// The touched cells of a network that another one came before, in the order in which they are taken, by an order of
/// its servers: those that the other one has not or makes of other things, and those that are made of touched ones.
/// Looks only at the servers where the two networks differ, at those where what leaves a touched hop arrives, and at
/// the whole paths of flows that have a candidate or a touched cell; and compares what a cell is made of only where it
/// may differ.
pub fn touched_cells(
    alloc: Global,
    old: &Network,
    net: &Network,
    site: Site,
    order: &[u32],
) -> Result<Vec<Cell>, AllocError>
    requires order { IsOrder net.now order.now }
    requires same { IsSameBut site old.now net.now }
    ensures touched { IfOk result (λ touched.
        TouchedOf old.now net.now (evaluation_order net.now order.now) touched.items) }
    ensures few { IfOk result (λ touched. length touched.items ≤ 36352) }
{
    net.keeps();
    let mut flags = no_flags(alloc, SLOTS as usize)?;
    let mut touched = Vec::new(alloc);
    let mut marks = first_marks(alloc, old, net, site)?;
    let paths = path_cells(alloc, net)?;
    for place in 0..order.len() {
        let server = order[place];
        search_server(
            alloc,
            old,
            net,
            site,
            server,
            paths.len(),
            &mut marks,
            &mut flags,
            &mut touched,
        )?;
    }
    search_paths(&paths, alloc, site, old, net, &mut touched, &mut flags)?;
    Ok(touched)
}

/// Those of some cells that a network lacks.
pub fn gone_cells(alloc: Global, net: &Network, cells: &[Cell]) -> Result<Vec<Cell>, AllocError>
    ensures { IfOk result (λ gone. gone.items ≡ gone_of net.now cells.now) }
{
    let mut gone = Vec::new(alloc);
    for cell in cells {
        if !has_cell(net, *cell) {
            gone.push(*cell)?;
        }
    }
    Ok(gone)
}
