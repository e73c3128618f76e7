//! Tests of numbers, of curves, of operators on curves that no command makes, of the algebra under one name, and of what servers leave, worked out by hand.
#![tactic(auto)]

#[cfg(test)]
mod algebra;
#[cfg(test)]
mod closures;
#[cfg(test)]
mod convolutions;
#[cfg(test)]
mod counters;
#[cfg(test)]
mod deconvolutions;
#[cfg(test)]
mod endings;
#[cfg(test)]
mod fifo_services;
pub mod forms;
#[cfg(test)]
mod inner_calls;
#[cfg(test)]
mod makings;
#[cfg(test)]
mod services;
#[cfg(test)]
mod shapes;
