//! What is found in a lawful run of a network, be it simulated or recorded: its worst delays and greatest backlogs, and
//! what it breaks first; and how a report on it ends.

mod curves;
mod finding;
mod laws;

pub use curves::keeps_curves;
pub use finding::{findings, status_by};
pub use laws::{findings_are_one, findings_tell_premises, quiet_findings_are_within_bounds};
