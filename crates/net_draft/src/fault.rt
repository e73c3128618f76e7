//! Why a file gives no draft.

ghost use Rattle.std.specs.Prelude.{◌≡◌};
ghost use Rattle.net_draft.specs.declared.fault.DraftFault.TheVariants.{NoMemory};

use net_model::NetFault;
use std::alloc::{AllocError, AllocFailed};

/// Why a file gives no draft of a network.
#[derive(Drop)]
pub enum DraftFault {
    /// An allocation was refused.
    NoMemory,
    /// What is wrong with the file, and where. It is the first such fault.
    Fault(NetFault),
}

impl From<AllocError> for DraftFault {
    ghost from_gives = { λ _ e. e ≡ NoMemory };

    fn from(_e: AllocError) -> DraftFault {
        DraftFault::NoMemory
    }
}

impl<T: Drop> From<AllocFailed<T>> for DraftFault {
    ghost from_gives = { λ _ e. e ≡ NoMemory };

    fn from(_e: AllocFailed<T>) -> DraftFault {
        DraftFault::NoMemory
    }
}
