//! Service curves.

ghost use Rattle.std.specs.Prelude.{◌≡◌, Err, IfOk, IfErr};
ghost use Rattle.std.specs.String.{string_bytes};
ghost use Rattle.net_draft.specs.CurveTexts.{text_of};
ghost use Rattle.net_draft.specs.Kept.{IsMadeDraft};
ghost use Rattle.net_draft.specs.Laws.{kind_of};
ghost use Rattle.net_draft.specs.Made.{IsOverNone};
ghost use Rattle.upp_curve.specs.Curves.{IsCurve};
ghost use Rattle.net_text.specs.Becoming.{IsCurveOf, BecomesItself, FailsAt};

use crate::limits::limit_fault;
use net_draft::{CurveDraft, CurveText, DraftFault};
use net_model::ServiceKind;
use std::alloc::AllocError;
use upp_curve::Curve;

/// How a service curve is given.
pub(crate) fn kind_of(text: &CurveText) -> ServiceKind
    ensures { result ≡ kind_of (text_of text.now) }
{
    match text {
        CurveText::RateLatency { rate: _, latency } => ServiceKind::Latency(*latency),
        CurveText::Gate {
            rate: _,
            cycle,
            slot,
        } => ServiceKind::Gate {
            cycle: *cycle,
            slot: *slot,
        },
        _ => ServiceKind::Listed,
    }
}

/// The same curve again.
pub(crate) fn copy_of(curve: &Curve) -> Result<Curve, AllocError>
    ensures same { IfOk result (λ c. c ≡ curve.now) }
    ensures curve { IsCurve curve.now }
{
    curve.keeps();
    curve.copy()
}

/// The service curve at a place. Want of memory says that it is over no limit.
pub(crate) fn service_of(place: String, draft: &CurveDraft) -> Result<Curve, DraftFault>
    requires { IsMadeDraft draft.now }
    ensures made { IfOk result (IsCurveOf (text_of draft.now.text)) }
    ensures over { IfErr result (FailsAt (BecomesItself (text_of draft.now.text)) (string_bytes place)) }
    ensures memory { result ≡ Err DraftFault.NoMemory → IsOverNone (text_of draft.now.text) }
{
    match &draft.made {
        Ok(curve) => Ok(copy_of(curve)?),
        Err(limit) => Err(limit_fault(*limit, place)),
    }
}
