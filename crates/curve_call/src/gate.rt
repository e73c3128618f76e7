//! The first look at a call: its window with no period, where the gauge is within the limit.

ghost use Rattle.std.specs.Prelude.{◌≡◌, Some, IfOk, IfErr, IfSome};
ghost use Rattle.upp_curve.specs.Curves.{IsCurve};
ghost use Rattle.curve_call.specs.CallWindows.{IsForward, SecondIsCurve};
ghost use Rattle.curve_call.specs.FirstWindows.{IsFirstLook, IsFirstWindow, IsWideAtFirst};
ghost use Rattle.curve_call.specs.Frames.{IsFrame, IsRefusedAt};

use crate::frame::{Frame, within};
use crate::windows::{CallWindow, call_window};
use upp_curve::Curve;
use upp_limits::{OpFault, OpKind};

/// What the first look at a call finds.
#[derive(Debug, Clone, Copy)]
pub struct FirstLook {
    /// The window with no period.
    pub window: CallWindow,
    /// The call with no period, where it is within both limits.
    pub frame: Option<Frame>,
}

// The first look where the call with no period is within both limits.
fn look_at(frame: Frame) -> FirstLook
    ensures { result ≡ record {
      window = record { start = frame.start; period = frame.period; end = frame.end };
      frame = Some frame;
    } }
{
    FirstLook {
        window: CallWindow {
            start: frame.start,
            period: frame.period,
            end: frame.end,
        },
        frame: Some(frame),
    }
}

// The first look where the call with no period is over a limit.
fn look_past(op: &OpKind, f: &Curve, g: &Curve, fault: OpFault) -> Result<FirstLook, OpFault>
    requires forward { IsForward op.now }
    requires over { IsRefusedAt op.now f.now g.now 0 0 fault }
    ensures look { IfOk result (IsFirstLook op.now f.now g.now) }
    ensures refused { IfErr result (IsWideAtFirst op.now f.now g.now) }
    ensures kept { IsCurve f.now × SecondIsCurve op.now g.now }
{
    let window = call_window(op, f, g, 0, 0);
    match fault {
        OpFault::TooWide => Err(OpFault::TooWide),
        _ => match window {
            Some(window) => Ok(FirstLook {
                window,
                frame: None,
            }),
            None => Err(OpFault::TooWide),
        },
    }
}

/// The window of a call with no period, and its frame where it is within both limits. Refused with TooWide exactly where
/// its gauge is 2^120 or more, however many pieces there are. No memory is taken.
pub fn first_look(op: &OpKind, f: &Curve, g: &Curve) -> Result<FirstLook, OpFault>
    requires { IsForward op.now }
    ensures look { IfOk result (IsFirstLook op.now f.now g.now) }
    ensures refused { IfErr result (IsWideAtFirst op.now f.now g.now) }
    ensures kept { IsCurve f.now × SecondIsCurve op.now g.now }
{
    match within(op, f, g, 0) {
        Ok(frame) => Ok(look_at(frame)),
        Err(fault) => look_past(op, f, g, fault),
    }
}

/// The window of a call with no period. Refused with TooWide exactly where its gauge is 2^120 or more, however many
/// pieces there are. No memory is taken.
pub fn first_window(op: &OpKind, f: &Curve, g: &Curve) -> Result<CallWindow, OpFault>
    requires { IsForward op.now }
    ensures window { IfOk result (IsFirstWindow op.now f.now g.now) }
    ensures refused { IfErr result (IsWideAtFirst op.now f.now g.now) }
    ensures kept { IsCurve f.now × SecondIsCurve op.now g.now }
{
    match first_look(op, f, g) {
        Ok(look) => Ok(look.window),
        Err(fault) => Err(fault),
    }
}

/// A call with k periods within both limits, as `within`, after a first look: with no period its frame was found there.
pub fn within_after(
    look: &FirstLook,
    op: &OpKind,
    f: &Curve,
    g: &Curve,
    k: u128,
) -> Result<Frame, OpFault>
    requires forward { IsForward op.now }
    requires look { IfSome look.now.frame (IsFrame op.now f.now g.now 0 0) }
    ensures frame { IfOk result (IsFrame op.now f.now g.now k 0) }
    ensures refused { IfErr result (IsRefusedAt op.now f.now g.now k 0) }
{
    if k == 0 {
        if let Some(frame) = look.frame {
            return Ok(frame);
        }
    }
    within(op, f, g, k)
}
