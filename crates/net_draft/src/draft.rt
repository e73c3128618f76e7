//! Drafts of networks.

use crate::flow_draft::FlowDraft;
use crate::server_draft::ServerDraft;

/// A network as its file gives it. Its curves may be over their limits, and no closure is made.
#[derive(Drop)]
pub struct Draft {
    /// The version of the file: 1 or 2.
    pub version: u32,
    pub servers: Vec<ServerDraft>,
    pub flows: Vec<FlowDraft>,
}
