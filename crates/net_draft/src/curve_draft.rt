//! Curves of a draft.

use crate::curve_text::CurveText;
use curve_library::OverLimit;
use upp_curve::Curve;

/// A curve as a file writes it, and what was made of it: the curve, or the limit that it is over. No curve that is
/// refused for another cause is in a draft.
#[derive(Drop)]
pub struct CurveDraft {
    pub text: CurveText,
    pub made: Result<Curve, OverLimit>,
}
