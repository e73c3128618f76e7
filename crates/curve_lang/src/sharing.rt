//! Curves that were made, kept to be shared.

ghost use Rattle.std.specs.Prelude.{◌≡◌};
ghost use Rattle.curve_lang.specs.Finding.{Gives};
ghost use Rattle.curve_lang.specs.Sharing.{KindKept, CallKept, told_kind, told_call};
ghost use Rattle.curve_lang.specs.Views.{found};

use curve_library::{CurveFault, OverLimit};
use input_texts::curve_script::LangKind;
use std::alloc::Global;
use std::rc::Rc;
use upp_curve::Curve;
use upp_limits::OpFault;

/// The curve, to be shared from now on.
pub(crate) fn shared(alloc: Global, curve: Curve) -> Result<Rc<Curve>, LangKind>
    ensures { Gives curve (found result) }
{
    match Rc::new(alloc, curve) {
        Ok(handle) => Ok(handle),
        Err(_) => Err(LangKind::NoMemory),
    }
}

/// What the calculator tells of a kind of curve that was refused.
fn told_kind(fault: CurveFault) -> LangKind
    ensures { result ≡ told_kind fault }
{
    match fault {
        CurveFault::Op(OverLimit::TooMany) => LangKind::TooMany,
        CurveFault::Op(OverLimit::TooWide) => LangKind::TooWide,
        CurveFault::NoMemory => LangKind::NoMemory,
        CurveFault::Negative
        | CurveFault::ZeroPeriod
        | CurveFault::NotRising
        | CurveFault::NotContinuous
        | CurveFault::NotZeroAtStart => LangKind::C7,
    }
}

/// What the calculator tells of a call on curves that was refused.
pub(crate) fn told_call(fault: OpFault) -> LangKind
    ensures { result ≡ told_call fault }
{
    match fault {
        OpFault::TooMany => LangKind::TooMany,
        OpFault::TooWide => LangKind::TooWide,
        OpFault::NoMemory => LangKind::NoMemory,
    }
}

/// A curve of a kind, kept.
pub(crate) fn kept_kind(
    alloc: Global,
    made: Result<Curve, CurveFault>,
) -> Result<Rc<Curve>, LangKind>
    ensures { KindKept made (found result) }
{
    match made {
        Ok(curve) => shared(alloc, curve),
        Err(fault) => Err(told_kind(fault)),
    }
}

/// What a call made, kept.
pub(crate) fn kept_call(alloc: Global, made: Result<Curve, OpFault>) -> Result<Rc<Curve>, LangKind>
    ensures { CallKept made (found result) }
{
    match made {
        Ok(curve) => shared(alloc, curve),
        Err(fault) => Err(told_call(fault)),
    }
}
