//! Which cells two networks make of the same, and which are touched where the one came of the other: found without the
//! value of any cell. And the values of cells in versions, of which the touched ones are made anew, and what an edit replaces.
#![tactic(auto)]

pub mod cell_changes;
pub mod cell_values;
pub mod edit_sites;
mod finding;
mod lists;
mod marks;
mod of_number;
mod path_search;
mod reads;
mod rule;
mod services;
mod site;

pub use finding::{gone_cells, touched_cells};
pub use of_number::cells_of;
pub use rule::{has_cell, same_rule};
pub use site::{Site, is_candidate, others_keep_their_rule};
