//! Servers of a draft.

use crate::curve_draft::CurveDraft;
use fraction128::Frac;
use net_model::Discipline;

/// A server as a file gives it.
#[derive(Drop)]
pub struct ServerDraft {
    pub name: String,
    /// Bits in a unit of time, above 0.
    pub rate: Frac,
    /// How many bits it serves at least in a time through which it always has work.
    pub service: CurveDraft,
    /// How long a packet that leaves it is on the way: 0 or more.
    pub link: Frac,
    pub discipline: Discipline,
}
