//! What changes of a network's analysis where the network is edited: which cells are touched, what the others keep, and
//! each cell's place in a table by number.
//!
//! A law is the contract of a function that does nothing: its body is empty, and its `ensures` is proved.

mod laws;
mod places;

pub use laws::{
    first_over_is_touched, none_is_both, one_touched_list, slots_are_own, touched_answers_suffice,
    untouched_carry_over, untouched_stay,
};
pub use places::{SLOTS, is_placed, slot};
