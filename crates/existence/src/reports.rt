//! That the clauses of `analyse` and of `measure` are never empty.

mod laws;

pub use laws::{
    files_have_replies, files_have_reports, first_stages_end, has_table, measures_have_replies,
};
