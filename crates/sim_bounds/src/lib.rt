//! How far the times of a simulation can go, and on which grid they are.
#![tactic(auto)]

mod laws;
pub mod sim_gauge;
pub mod stated_service;
pub mod window_numbers;

pub use laws::{
    due_steps_are_in_time, due_steps_are_on_grid, horizons_fit, simulations_fit, states_have_times,
};
