//! Tables that are filled cell by cell.

ghost use Rattle.std.specs.Prelude.{◌≡◌, ◌≢◌, ◌≤◌, ◌<◌, ◌^◌, ◌⊎◌, ℕ, length, get_or, Some, None, OnOk, OnErr, option_copied};
ghost use Rattle.net_cells.specs.cell_table.Rows.{entry, kind_number, row_of};

use crate::cell_table::table::{CellValue, Table};
use crate::{Cell, Kind};
use std::alloc::{AllocError, Global};

/// How many kinds there are.
const KINDS: usize = 17;

// The number of a kind, from 0.
fn kind_number(kind: Kind) -> usize
    ensures value { result ≡ kind_number kind }
    ensures small { result < 17 }
{
    match kind {
        Kind::In => 0,
        Kind::Cross => 1,
        Kind::Total => 2,
        Kind::Higher => 3,
        Kind::QueueService => 4,
        Kind::Theta => 5,
        Kind::Residual => 6,
        Kind::QueueDelay => 7,
        Kind::QueueBacklog => 8,
        Kind::HopDelay => 9,
        Kind::ShiftOut => 10,
        Kind::DeconvOut => 11,
        Kind::Out => 12,
        Kind::PathService => 13,
        Kind::Tfa => 14,
        Kind::Sfa => 15,
        Kind::Bound => 16,
    }
}

// The row of a cell.
fn row_of(cell: Cell) -> usize
    ensures value { result ≡ row_of cell }
    ensures small { result < 2 ^ 37 }
{
    cell.a as usize * KINDS + kind_number(cell.kind)
}

// What a row has at a place; nothing past its end.
fn in_row<V>(row: &[Option<V>], place: usize) -> Option<&V>
    ensures { option_copied result ≡ get_or row.now place None }
{
    if place < row.len() {
        row[place].as_ref()
    } else {
        None
    }
}

// What rows have at a place of one; nothing past the last row.
fn at_place<V>(rows: &[Vec<Option<V>>], row: usize, place: usize) -> Option<&V>
    ensures { option_copied result ≡ entry rows.now row place }
{
    if row < rows.len() {
        in_row(&rows[row], place)
    } else {
        None
    }
}

// Makes room for so many rows, of which the new ones have nothing.
fn grow_rows<V: Drop>(
    alloc: Global,
    rows: &mut Vec<Vec<Option<V>>>,
    count: usize,
) -> Result<(), AllocError>
    ensures same { (i k : ℕ) → entry rows.new.items i k ≡ entry rows.old.items i k }
    ensures room { OnOk result (count ≤ length rows.new.items) }
{
    for _number in rows.len()..count {
        rows.push(Vec::new(alloc))?;
    }
    Ok(())
}

// Makes room for so many places in a row, of which the new ones have nothing.
fn grow_row<V: Drop>(row: &mut Vec<Option<V>>, count: usize) -> Result<(), AllocError>
    ensures same { (k : ℕ) → get_or row.new.items k None ≡ get_or row.old.items k None }
    ensures room { OnOk result (count ≤ length row.new.items) }
{
    for _number in row.len()..count {
        row.push(None)?;
    }
    Ok(())
}

// Puts a value at a place of a row; where there is no memory all is as it was.
fn put_in_row<V: Drop>(row: &mut Vec<Option<V>>, place: usize, value: V) -> Result<(), AllocError>
    requires { place < 2 ^ 32 }
    ensures put { OnOk result (get_or row.new.items place None ≡ Some value) }
    ensures others { (k : ℕ) → k ≢ place → get_or row.new.items k None ≡ get_or row.old.items k None }
    ensures kept { OnErr result ((k : ℕ) → get_or row.new.items k None ≡ get_or row.old.items k None) }
{
    grow_row(row, place + 1)?;
    row[place] = Some(value);
    Ok(())
}

// Puts a value at a place of one of some rows; where there is no memory all is as it was.
fn put_in<V: Drop>(
    alloc: Global,
    rows: &mut Vec<Vec<Option<V>>>,
    row: usize,
    place: usize,
    value: V,
) -> Result<(), AllocError>
    requires row { row < 2 ^ 37 }
    requires place { place < 2 ^ 32 }
    ensures put { OnOk result (entry rows.new.items row place ≡ Some value) }
    ensures others { (i k : ℕ) → (i ≢ row) ⊎ (k ≢ place) → entry rows.new.items i k ≡ entry rows.old.items i k }
    ensures kept { OnErr result ((i k : ℕ) → entry rows.new.items i k ≡ entry rows.old.items i k) }
{
    grow_rows(alloc, rows, row + 1)?;
    match put_in_row(&mut rows[row], place, value) {
        Ok(()) => Ok(()),
        Err(error) => Err(error),
    }
}

/// Values by cell: a row for each kind and first number, in it by the second number. A cell is looked up without a search.
#[derive(Drop)]
pub struct Analysis<V: CellValue + Drop> {
    alloc: Global,
    rows: Vec<Vec<Option<V>>>,
}

impl<V: CellValue + Drop> Table<V> for Analysis<V> {
    ghost use Rattle.net_cells.specs.cell_table.Rows.{held};

    ghost at = { λ t. held V.meaning t.rows.items };

    fn value(&self, cell: Cell) -> Option<&V> {
        at_place(&self.rows, row_of(cell), cell.b as usize)
    }
}

impl<V: CellValue + Drop> Analysis<V> {
    ghost use Rattle.std.specs.Prelude.{◌≡◌, ◌≢◌, Some, None, OnOk, OnErr};
    ghost use Rattle.net_cells.specs.declared.cell.Cell.{Cell};

    /// A table that has nothing.
    pub fn new(alloc: Global) -> Analysis<V>
        ensures { (c : Cell) → ⟦<Analysis<V> as Table<V>>⟧.at result c ≡ None }
    {
        Analysis {
            alloc,
            rows: Vec::new(alloc),
        }
    }

    /// Gives a cell a value, in place of what it had; refused only where there is no memory, and then all is as it was.
    pub fn put(&mut self, cell: Cell, value: V) -> Result<(), AllocError>
        ensures put { OnOk result (⟦<Analysis<V> as Table<V>>⟧.at self.new cell ≡ Some (V.meaning value)) }
        ensures others { OnOk result ((c : Cell) → c ≢ cell →
            ⟦<Analysis<V> as Table<V>>⟧.at self.new c ≡ ⟦<Analysis<V> as Table<V>>⟧.at self.old c) }
        ensures kept { OnErr result
            ((c : Cell) → ⟦<Analysis<V> as Table<V>>⟧.at self.new c ≡ ⟦<Analysis<V> as Table<V>>⟧.at self.old c) }
    {
        let row = row_of(cell);
        match put_in(self.alloc, &mut self.rows, row, cell.b as usize, value) {
            Ok(()) => Ok(()),
            Err(error) => Err(error),
        }
    }
}
