//! One server of a simulation: its queues, when it opens, its work, and what is due there next.
#![tactic(auto)]

mod due;
mod opening;
mod server_queues;
pub mod sim_loop;
pub mod sim_states;
pub mod stated_existence;
mod station;

pub use due::{Due, DueKind, keep_first};
pub use opening::{Gate, Opening, Span};
pub use server_queues::ServerQueues;
pub use station::{Next, Rest, Station, Stretch, due_of, rest_of};
