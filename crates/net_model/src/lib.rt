//! Networks: servers with a service curve and a discipline, and flows with an arrival curve and a path over them.
#![tactic(auto)]

mod breach;
mod copies;
mod edit;
mod fault;
mod flow;
mod laws;
mod names;
pub mod net_graph;
mod network;
mod plain;
mod server;
pub mod stated_runs;
mod trace;

pub use breach::Breach;
pub use edit::{Done, Edit, PathEntry};
pub use fault::{CurveRefusal, NetFault, NetKind};
pub use flow::Flow;
pub use laws::kinds_may_stand;
pub use names::{are_name_bytes, find_colon, is_name};
pub use network::Network;
pub use plain::plain_network;
pub use server::{Discipline, Server, ServiceKind};
pub use trace::{Stall, Trace, TracePacket};
