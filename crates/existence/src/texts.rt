//! That each text that a command reads is what it is read as, or has a first fault.

mod laws;

pub use laws::{
    edits_are_read, list_stages_end, run_stages_end, runs_are_read, scripts_are_read,
    trace_stages_end, traces_are_read, traces_stand,
};
