//! Edits of networks: what each makes of a network, or why it is refused.
#![tactic(auto)]

mod add;
mod all_kinds;
mod change;
mod fault;
mod flow_edits;
mod names;
mod numbers;
mod quanta;
mod replacing;
mod server_edits;
mod service;
mod ways;

pub use all_kinds::{change_of, edited_network};
pub use change::{Change, changed, copied_flow};
pub use fault::EditFault;
pub use replacing::{with_flow, with_server};
