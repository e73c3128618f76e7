//! Values of cells in a table with versions, each at its place: those that an edit touches are made anew in a version of
//! their own, and the others stay where they are.

mod anew;
mod changed;
mod values;

pub use anew::made_anew;
pub use changed::edited_values;
pub use values::Values;
