//! Where packets go: the first and the last server of a flow, its queue at each server of its path, the server after
//! it, and how long the way there is.

mod paths;
mod routes;

pub use routes::{entrance, exit, link_of, next_server, queue_of};
