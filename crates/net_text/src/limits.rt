//! Curves that are over a limit.

ghost use Rattle.std.specs.Prelude.{◌≡◌, IfOk};
ghost use Rattle.std.specs.String.{string_bytes};
ghost use Rattle.net_draft.specs.Faults.{under, nth};
ghost use Rattle.net_text.specs.Becoming.{limit_kind, IsLimitFault};

use net_draft::{DraftFault, nth, under};
use net_model::{NetFault, NetKind};
use std::alloc::{AllocError, Global};
use upp_limits::OverLimit;

/// The kind of fault of a curve that is over a limit.
fn limit_kind(limit: OverLimit) -> NetKind
    ensures { result ≡ limit_kind limit }
{
    match limit {
        OverLimit::TooMany => NetKind::CurveTooMany,
        OverLimit::TooWide => NetKind::CurveTooWide,
    }
}

/// The place of a key of an entry of an array at the root. It is made before the curve there is looked at, so that a
/// limit is told without memory.
pub(crate) fn place_of(
    alloc: Global,
    array: &str,
    number: usize,
    key: &str,
) -> Result<String, AllocError>
    ensures { IfOk result (λ s. string_bytes s ≡ under (nth array.now number) key.now) }
{
    let entry = nth(alloc, array, number)?;
    under(alloc, entry.as_str(), key)
}

/// The fault of the curve at a place that is over a limit.
pub(crate) fn limit_fault(limit: OverLimit, place: String) -> DraftFault
    ensures { IsLimitFault limit (string_bytes place) result }
{
    let kind = limit_kind(limit);
    DraftFault::Fault(NetFault { kind, place })
}
