//! What the program's commands answer: a status with a text, and the lines of refusals.
#![tactic(auto)]

mod refusals;
pub mod run_findings;
pub mod simulated_findings;

pub use refusals::{
    cell_too_many, cell_too_wide, goes_round, on_fault, on_script_fault, on_table_fault,
    sim_too_wide,
};
pub use replies::{Answer, Status};
