//! Why a trace has no measured curve.

use std::alloc::AllocError;

/// Why there is no least arrival curve. (The limits are our own choice.)
#[derive(Clone, Copy)]
pub enum MeasureFault {
    /// The flow has more than 1,024 packets in the trace.
    TooMany,
    /// It has not, and its times and bits are too wide.
    TooWide,
    /// An allocation was refused.
    NoMemory,
}

impl From<AllocError> for MeasureFault {
    ghost use Rattle.std.specs.Prelude.{◌≡◌};
    ghost use Rattle.measure_curve.specs.declared.fault.MeasureFault.TheVariants.{NoMemory};

    ghost from_gives = { λ _ e. e ≡ NoMemory };

    fn from(_e: AllocError) -> MeasureFault {
        MeasureFault::NoMemory
    }
}
