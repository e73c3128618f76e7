//! The tree over which a link goes.

ghost use Rattle.std.specs.Prelude.{◌≡◌, ◌+◌, ◌<◌, ◌^◌, ◌==◌, ℕ, List, [], ◌∷◌, ◌++◌, length, slice_get, Some, None, false};
ghost use Rattle.std.specs.List.{list_any};
ghost use Rattle.document_rows.specs.declared.fault.Column.TheVariants as column;
ghost use Rattle.document_rows.specs.declared.fault.RowError.TheVariants as errors;
ghost use Rattle.document_tables.specs.Trees as spec;
ghost use Rattle.document_tables.specs.Growing.{Grows, HasOwnPorts};
ghost use Rattle.document_tables.specs.Grids as grids;

use crate::stops::Stops;
use document_rows::{CellFault, Column, RowError, Wrong};
use std::alloc::Global;

/// The ports of a link, each with the one after which it comes, and the one at which all paths begin. They stand in an
/// order in which each comes after the one from which its frames come.
#[derive(Drop)]
pub struct Tree {
    pub(crate) root: Option<usize>,
    pub(crate) stops: Stops,
}

fn wrong_path(wrong: Wrong) -> RowError
    ensures { result ≡ errors.Cell (record { column = column.Path; wrong = wrong }) }
{
    RowError::Cell(CellFault {
        column: Column::Path,
        wrong,
    })
}

// Whether a port comes after this one.
fn is_after(before: Option<usize>, after: usize) -> bool
    ensures { result ≡ spec.same before (Some after) }
{
    match before {
        Some(before) => before == after,
        None => false,
    }
}

impl Tree {
    /// No port.
    pub fn new(alloc: Global) -> Tree
        ensures { spec.IsTreeOf [] result }
    {
        Tree {
            root: None,
            stops: Stops::new(alloc),
        }
    }

    // Puts the first port of a path into the tree.
    fn begin(&mut self, port: usize) -> Result<(), RowError>
        ensures { (paths : List (List ℕ)) → spec.IsTreeOf paths self.old
            → Grows result (spec.hangs paths 0 None port) (Some port) (paths ++ (port ∷ []) ∷ []) self.new }
    {
        match self.root {
            Some(root) => {
                if root == port {
                    Ok(())
                } else {
                    Err(wrong_path(Wrong::BeginsElsewhere))
                }
            }
            None => {
                self.stops.pass(port, None)?;
                self.root = Some(port);
                Ok(())
            }
        }
    }

    // Puts a port behind the one before it in a path, at a place of that from 0.
    fn step(&mut self, place: usize, after: usize, port: usize) -> Result<(), RowError>
        requires { place + 1 < 2 ^ 64 }
        ensures { (paths : List (List ℕ)) (path : List ℕ) → spec.IsTreeOf (paths ++ path ∷ []) self.old
            → spec.last_of None path ≡ Some after → list_any (λ n. n == port) path ≡ false
            → Grows result (spec.hangs paths place (Some after) port) (Some port)
            (paths ++ (path ++ port ∷ []) ∷ []) self.new }
    {
        match self.stops.before(port) {
            Some(before) => {
                if is_after(before, after) {
                    Ok(())
                } else {
                    Err(wrong_path(Wrong::AfterAnother(place + 1)))
                }
            }
            None => {
                self.stops.pass(port, Some(after))?;
                Ok(())
            }
        }
    }

    /// Puts a path into the tree.
    pub fn grow(&mut self, path: &[usize]) -> Result<(), RowError>
        requires some { 0 < length path.now }
        requires own { HasOwnPorts path.now }
        ensures { (paths : List (List ℕ)) → spec.IsTreeOf paths self.old
            → Grows result (spec.hangs_from paths 0 None path.now) (spec.last_of None path.now)
            (paths ++ path.now ∷ []) self.new }
    {
        self.begin(path[0])?;
        for place in 1..path.len() {
            self.step(place, path[place - 1], path[place])?;
        }
        Ok(())
    }

    /// How many ports it has.
    pub(crate) fn len(&self) -> usize
        ensures { result ≡ length self.now.stops }
    {
        self.stops.len()
    }

    /// The port at a place, and the one after which it comes.
    pub(crate) fn stop(&self, place: usize) -> (usize, Option<usize>)
        requires { place < length self.now.stops }
        ensures { slice_get self.now.stops place ≡ Some result }
    {
        self.stops.stop(place)
    }

    /// The place of the port after which one comes.
    pub(crate) fn place_after(&self, after: Option<usize>) -> Option<usize>
        ensures { result ≡ grids.place_after self.now.stops after }
    {
        match after {
            Some(port) => self.stops.place_of(port),
            None => None,
        }
    }

    /// The place of the last port of a path.
    pub(crate) fn place_of_last(&self, path: &[usize]) -> usize
        ensures { result ≡ grids.end_of self.now.stops path.now }
    {
        match self.place_after(path.last().copied()) {
            Some(place) => place,
            None => 0,
        }
    }
}
