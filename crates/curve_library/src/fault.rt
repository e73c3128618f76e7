//! Why a curve could not be built.

use upp_limits::OverLimit;

/// Why a call that builds a curve refuses. The first that applies, in this order, is answered.
#[derive(Debug, Clone, Copy, PartialEq, Eq)]
pub enum CurveFault {
    /// A number that has to be 0 or more is below 0.
    Negative,
    /// A period has no length, or a gate no slot that fits its cycle.
    ZeroPeriod,
    /// The starts are not in order, or the curve falls somewhere.
    NotRising,
    /// A service curve jumps.
    NotContinuous,
    /// A service curve is above 0 at 0.
    NotZeroAtStart,
    /// The curve is over a limit by itself.
    Op(OverLimit),
    /// An allocation was refused.
    NoMemory,
}
