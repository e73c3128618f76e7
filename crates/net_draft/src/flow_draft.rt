//! Flows of a draft.

use crate::curve_draft::CurveDraft;
use crate::hop::Hop;

/// A flow as a file gives it.
#[derive(Drop)]
pub struct FlowDraft {
    pub name: String,
    /// The bits of its longest packet: 1 to 2^24.
    pub packet: u32,
    /// How many bits enter at most in a closed window of time.
    pub arrival: CurveDraft,
    /// Whether the arrival curve is to be replaced by its subadditive closure.
    pub closes: bool,
    /// Its servers and its queue at each, in order: 1 to 16.
    pub path: Vec<Hop>,
}
