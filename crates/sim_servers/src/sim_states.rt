//! What a simulator of the stated run keeps between two steps: its stations, the packets on links, and how many have
//! entered. The first of what it takes for due is the next step of the stated run, and each step keeps what it keeps.

mod arrival;
mod laws;

pub use arrival::Arrival;
pub use laws::{
    arrivals_keep_the_state, arrivals_may_be_taken, departures_keep_the_state,
    entries_keep_the_state, entries_may_be_taken, first_is_next, last_departures_keep_the_state,
    nothing_is_left, visits_keep_the_state, work_keeps_the_state,
};
