//! A call with some number of periods between two: its limits.

ghost use Rattle.std.specs.Prelude.{IfErr};
ghost use Rattle.upp_curve.specs.Curves.{IsCurve};
ghost use Rattle.curve_call.specs.CallWindows.{IsForward};
ghost use Rattle.curve_call.specs.FirstWindows.{IsRefusedBetween};

use crate::frame::within;
use upp_curve::Curve;
use upp_limits::{OpFault, OpKind};

/// Refuses a call that is refused with each number of periods from `low` to `high`, where the windows with these two
/// tell it: as too wide where already the lesser is, as too many where that is and not even the greater is too wide. No
/// memory is taken.
pub fn refuse_between(
    op: &OpKind,
    f: &Curve,
    g: &Curve,
    low: u128,
    high: u128,
) -> Result<(), OpFault>
    requires forward { IsForward op.now }
    requires curves { IsCurve f.now × IsCurve g.now }
    ensures { IfErr result (IsRefusedBetween op.now f.now g.now low high) }
{
    match within(op, f, g, low) {
        Err(OpFault::TooWide) => Err(OpFault::TooWide),
        Err(OpFault::TooMany) => match within(op, f, g, high) {
            Err(OpFault::TooMany) => Err(OpFault::TooMany),
            _ => Ok(()),
        },
        _ => Ok(()),
    }
}
