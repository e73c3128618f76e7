//! Runs of packet networks: what a run records, which runs are lawful, and the laws that every lawful run keeps at
//! each server, whatever the server's discipline.
//!
//! A law is the contract of a function that does nothing: its body is empty, and its `ensures` is proved.
#![tactic(auto)]

mod bits;
mod examples;
mod laws;
mod steps;

pub use bits::whole;
pub use examples::{
    a_dead_flow_is_refused, a_link_is_passed_in_time, a_run_may_be_cut_in_work,
    an_unknown_flow_is_refused, both_orders_are_lawful, left_complete_is_refused,
    one_packet_reaches_its_bound, overtaking_is_refused, the_first_queue_goes_first,
    visits_go_by_the_list, work_past_the_bits_is_refused,
};
pub use laws::{
    backlog_from_gap, backlog_from_service, closure_is_kept, delay_from_service, delay_from_wait,
    fifo_queue_is_served, flow_is_of_one_queue, one_flow_is_bounded, output_from_delay,
    output_from_service, packets_are_served, part_output_from_service, server_is_served,
    several_flows_are_bounded, views_are_lawful, who_keeps_keeps_greater, who_serves_serves_lesser,
};
pub use steps::{Run, Step};
