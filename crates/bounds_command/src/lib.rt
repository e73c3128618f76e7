//! The command that bounds delays and backlogs in a network of ports and links: from the bytes of two tables to the
//! report, or to the line of a refusal.
#![tactic(auto)]

mod answering;
mod form;
mod laws;
mod loads;
mod on_document;
mod refusals;
mod rows;

pub use answering::on_tables;
pub use form::Form;
pub use laws::{
    replies_are_complete, replies_are_determined, reports_tell_bounds, statuses_have_causes,
    tables_are_determined,
};
pub use replies::{Answer, Status};
