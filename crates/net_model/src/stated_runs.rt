//! The stated run of a network and a trace: what a simulation of them must give, and what every such run keeps.

mod laws;

pub use laws::{
    each_leaves_its_last, every_packet_leaves, open_servers_start, stated_run_is_unique,
    stated_runs_are_lawful, stated_runs_go_by_time, traces_make_setups,
};
