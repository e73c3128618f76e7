//! The cells of a network: the curves and numbers that its analysis is made of. Which cells there are and in which
//! order they are taken, what each is made of, what a table of their values must keep, and laws of all that. There is
//! no arithmetic on curves here.
#![tactic(auto)]

mod cell;
pub mod cell_table;
mod effort;
mod laws;
mod left;
mod numbered;
mod operand;
mod order;
mod parts;
mod visit;

pub use cell::{Cell, Kind, PATH_KINDS, SERVER_KINDS, Scope};
pub use effort::work;
pub use laws::{
    answers_meet_equations, formulas_are_determined, front_meets_below, memory_ends_sooner,
    one_is_first_over, operands_are_cells, operands_are_different, operands_come_first,
    order_has_each_cell, refusals_are_placed, tables_agree, work_is_operators,
};
pub use left::{Leaving, leaves};
pub use numbered::{
    hops, is_by_priority, levels, live_flow, queue_of_hop, queues, server, server_of_hop,
};
pub use operand::{operands, visits_in};
pub use order::cells;
pub use parts::part_of;
pub use visit::{Visit, visits};
