//! That the work of edits, of which the clause on steps speaks, is there.

mod laws;

pub use laws::{edits_have_work, lists_have_work};
