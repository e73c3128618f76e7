//! Values of cells by their places.

ghost use Rattle.std.specs.Prelude.{◌≡◌};

use crate::cell_changes::{SLOTS, is_placed, slot};
use net_cells::Cell;
use net_cells::cell_table::{CellValue, Table};
use std::alloc::{AllocError, Global};
use std::rc::Rc;
use version_table::Versions;

/// Values by cell, in versions of which the newest is the table.
#[derive(Drop)]
pub struct Values<V: CellValue + Drop> {
    versions: Versions<V>,
    ghost room: { versions.cells ≡ 36352 },
}

impl<V: CellValue + Drop> Table<V> for Values<V> {
    ghost use Rattle.cell_rules.specs.cell_values.Placed.{placed};

    ghost at = { λ t. placed V.meaning t.versions.newest };

    fn value(&self, cell: Cell) -> Option<&V> {
        if is_placed(cell) {
            self.versions.get(slot(cell))
        } else {
            None
        }
    }
}

impl<V: CellValue + Drop> Values<V> {
    ghost use Rattle.std.specs.Prelude.{◌≡◌, ◌≢◌, Some, None, IfOk, OnOk, OnErr, [], MatchOption, ◌<◌, ◌-◌, ◌^◌};
    ghost use Rattle.std.specs.Prelude.{length};
    ghost use Rattle.net_cells.specs.declared.cell.Cell.{Cell};
    ghost use Rattle.cell_rules.specs.cell_changes.Slots.{HasSlot, slots};
    ghost use Rattle.version_table.specs.Histories.{IsMarked, IsUndone};

    /// One version that has nothing.
    pub fn new(alloc: Global) -> Result<Values<V>, AllocError>
        ensures first { IfOk result (λ t. t.versions.kept ≡ []) }
        ensures nothing { IfOk result (λ t. (c : Cell) → ⟦<Values<V> as Table<V>>⟧.at t c ≡ None) }
    {
        Ok(Values {
            versions: Versions::new(alloc, SLOTS)?,
        })
    }

    /// The versions: all, and the newest, with a cell's value at its place.
    pub fn versions(&self) -> &Versions<V>
        ensures versions { result.now ≡ self.now.versions }
        ensures room { result.now.cells ≡ slots }
    {
        &self.versions
    }

    /// Gives a cell a value, in place of what it had; refused only where there is no memory, and then all is as it was.
    pub fn put(&mut self, cell: Cell, value: Rc<V>) -> Result<(), AllocError>
        requires { HasSlot cell }
        ensures put { OnOk result (⟦<Values<V> as Table<V>>⟧.at self.new cell ≡ Some (V.meaning value.value)) }
        ensures others { OnOk result ((c : Cell) → c ≢ cell →
            ⟦<Values<V> as Table<V>>⟧.at self.new c ≡ ⟦<Values<V> as Table<V>>⟧.at self.old c) }
        ensures before { self.new.versions.kept ≡ self.old.versions.kept }
        ensures kept { OnErr result (self.new.versions ≡ self.old.versions) }
    {
        self.versions.set(slot(cell), Some(value))
    }

    /// Takes the value of a cell away; refused only where there is no memory, and then all is as it was.
    pub fn clear(&mut self, cell: Cell) -> Result<(), AllocError>
        requires { HasSlot cell }
        ensures cleared { OnOk result (⟦<Values<V> as Table<V>>⟧.at self.new cell ≡ None) }
        ensures still { OnOk result ((c : Cell) →
            ⟦<Values<V> as Table<V>>⟧.at self.old c ≡ None → ⟦<Values<V> as Table<V>>⟧.at self.new c ≡ None) }
        ensures others { OnOk result ((c : Cell) → c ≢ cell →
            ⟦<Values<V> as Table<V>>⟧.at self.new c ≡ ⟦<Values<V> as Table<V>>⟧.at self.old c) }
        ensures before { self.new.versions.kept ≡ self.old.versions.kept }
        ensures kept { OnErr result (self.new.versions ≡ self.old.versions) }
    {
        self.versions.set(slot(cell), None)
    }

    /// Keeps the newest version, and goes on with a copy of it; refused only where there is no memory, and then all is
    /// as it was.
    pub fn mark(&mut self) -> Result<(), AllocError>
        requires { length self.old.versions.kept < 2 ^ 32 - 1 }
        ensures marked { OnOk result (IsMarked self.old.versions self.new.versions) }
        ensures refused { OnErr result (self.new.versions ≡ self.old.versions) }
    {
        self.versions.mark()
    }

    /// Gives up the newest version for the last one that was kept; none exactly where none was.
    pub fn undo(&mut self) -> Option<()>
        ensures { MatchOption result ((self.old.versions.kept ≡ []) × (self.new.versions ≡ self.old.versions))
            (λ _. IsUndone self.old.versions self.new.versions) }
    {
        self.versions.undo()
    }
}
