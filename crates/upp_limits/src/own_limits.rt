//! Whether a call, or a curve by itself, is over a limit.

ghost use Rattle.std.specs.Prelude.{◌<◌, ◌≤◌, ◌^◌, IfErr, IfOk, MatchOption};
ghost use Rattle.upp_curve.specs.Curve.{SpecCurve};
ghost use Rattle.upp_limits.specs.Limits.{own_end, own_sizes};
ghost use Rattle.upp_limits.specs.LimitTest.{IsPassed};
ghost use Rattle.upp_curve.specs.Normal.{IsRaw};
ghost use Rattle.upp_limits.specs.OwnLimits.{IsOver, IsWithinOwn};
ghost use Rattle.upp_limits.specs.OwnWindow.{AreNumbers};

use crate::counts::count_below;
use crate::op_kind::OpFault;
use crate::own_window::{OwnNumbers, own_numbers};
use upp_curve::Tail;
use upp_curve::affine_segment::Piece;

/// The limit that is passed.
#[derive(Debug, Clone, Copy, PartialEq, Eq)]
pub enum OverLimit {
    /// The gauge is below 2^120, and the tally above 2^20.
    TooMany,
    /// The gauge is 2^120 or more.
    TooWide,
}

impl From<OverLimit> for OpFault {
    ghost use Rattle.std.specs.Prelude.{◌≡◌};
    ghost use Rattle.upp_limits.specs.LimitTest.{fault_of};

    ghost from_gives = { λ limit e. e ≡ fault_of limit };

    fn from(limit: OverLimit) -> OpFault {
        match limit {
            OverLimit::TooMany => OpFault::TooMany,
            OverLimit::TooWide => OpFault::TooWide,
        }
    }
}

/// Refused with the limit that a gauge and a tally are over; the gauge is looked at first.
pub fn within_limits(gauge: u128, tally: u64) -> Result<(), OverLimit>
    ensures narrow { IfOk result (λ _. gauge < 2 ^ 120) }
    ensures few { IfOk result (λ _. tally ≤ 2 ^ 20) }
    ensures over { IfErr result (IsPassed gauge tally) }
{
    if gauge >= 1 << 120 {
        return Err(OverLimit::TooWide);
    }
    if tally > 1 << 20 {
        return Err(OverLimit::TooMany);
    }
    Ok(())
}

/// The numbers of a curve by itself, in whatever form it is given. Refused with the limit that it is over.
pub fn own_within(pieces: &[Piece], tail: &Tail) -> Result<OwnNumbers, OverLimit>
    requires { let c : SpecCurve = record { pieces = pieces.now; tail = tail.now } in IsRaw c }
    ensures numbers { let c : SpecCurve = record { pieces = pieces.now; tail = tail.now } in
        IfOk result (AreNumbers (own_end c) (own_sizes c)) }
    ensures within { let c : SpecCurve = record { pieces = pieces.now; tail = tail.now } in
        IfOk result (λ _. IsWithinOwn c) }
    ensures over { let c : SpecCurve = record { pieces = pieces.now; tail = tail.now } in
        IfErr result (IsOver c) }
{
    let Some(own) = own_numbers(pieces, tail) else {
        return Err(OverLimit::TooWide);
    };
    within_limits(own.gauge, count_below(pieces, tail, own.end))?;
    Ok(own)
}

/// The limit that a curve by itself, in whatever form it is given, is over; None where it is over neither. No memory is
/// taken.
pub fn over_own_limit(pieces: &[Piece], tail: &Tail) -> Option<OverLimit>
    requires { let c : SpecCurve = record { pieces = pieces.now; tail = tail.now } in IsRaw c }
    ensures { let c : SpecCurve = record { pieces = pieces.now; tail = tail.now } in
        MatchOption result (IsWithinOwn c) (IsOver c) }
{
    match own_within(pieces, tail) {
        Ok(_) => None,
        Err(limit) => Some(limit),
    }
}
