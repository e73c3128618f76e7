//! Why a simulation gives no run.

ghost use Rattle.std.specs.Prelude.{◌≡◌};
ghost use Rattle.simulator.specs.declared.fault.SimFault.TheVariants.{NoMemory};

use std::alloc::AllocError;

/// Why a simulation gives no run.
#[derive(Clone, Copy)]
pub enum SimFault {
    /// The simulation gauge is 2^120 or more: numbers of the run may be too wide.
    TooWide,
    /// An allocation was refused.
    NoMemory,
}

impl From<AllocError> for SimFault {
    ghost from_gives = { λ _ e. e ≡ NoMemory };

    fn from(_e: AllocError) -> SimFault {
        SimFault::NoMemory
    }
}
