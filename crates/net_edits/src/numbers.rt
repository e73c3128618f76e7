//! Tests of the values of an edit.

ghost use Rattle.std.specs.Prelude.{◌≡◌};
ghost use Rattle.net_model.specs.Accepted.{HasFewQueues};
ghost use Rattle.net_model.specs.Quanta.{is_quantum_of};
ghost use Rattle.net_model.specs.Views.{discipline_of};
ghost use Rattle.net_edits.specs.Edited as spec;
ghost use Rattle.net_edits.specs.Replies.{Tells};
ghost use Rattle.net_edits.specs.Values as values;

use crate::fault::EditFault;
use fraction128::Frac;
use net_model::Discipline;
use std::cmp::Ordering;

const MOST_BITS: i64 = 16_777_216;

/// Whether a number is below 0.
pub(crate) fn is_negative(x: Frac) -> bool
    ensures { result ≡ spec.is_negative x }
{
    match x.cmp(&Frac::zero()) {
        Ordering::Less => true,
        _ => false,
    }
}

/// Whether a number is above 0.
pub(crate) fn is_positive(x: Frac) -> bool
    ensures { result ≡ spec.is_positive x }
{
    match Frac::zero().cmp(&x) {
        Ordering::Less => true,
        _ => false,
    }
}

/// The bits of a packet or a quantum.
pub(crate) fn length_of(bits: i64) -> Result<u32, EditFault>
    ensures { Tells (values.whole_that values.is_length bits) result }
{
    if 1 <= bits && bits <= MOST_BITS {
        Ok(bits as u32)
    } else {
        Err(EditFault::BadValue)
    }
}

/// The number of a queue that has a quantum.
pub(crate) fn quantum_of(discipline: &Discipline, queue: i64) -> Result<u32, EditFault>
    requires { HasFewQueues (discipline_of discipline.now) }
    ensures { Tells (values.whole_that (is_quantum_of (discipline_of discipline.now)) queue) result }
{
    if 0 <= queue && discipline.has_quantum(queue as u64) {
        Ok(queue as u32)
    } else {
        Err(EditFault::BadValue)
    }
}
