//! Curves of texts.

ghost use Rattle.std.specs.Prelude.{◌≡◌, Err, None, IfOk};
ghost use Rattle.net_draft.specs.Faults.{Gives, IsFault};
ghost use Rattle.net_draft.specs.CurveTexts.{text_of};
ghost use Rattle.net_draft.specs.Made.{CurveAnswers, IsOverNone, IsToldAs, limit_of};
ghost use Rattle.net_draft.specs.Kept.{IsMadeDraft};
ghost use Rattle.net_draft.specs.Tables.{curve_at};

use crate::curve_draft::CurveDraft;
use crate::curve_text::CurveText;
use crate::fault::DraftFault;
use crate::places::fault_at;
use curve_library::{CurveFault, OverLimit, bucket, gate, listed, rate_latency, stair};
use net_model::{CurveRefusal, NetKind};
use std::alloc::Global;
use upp_curve::Curve;

fn made(alloc: Global, text: &CurveText) -> Result<Curve, CurveFault>
    ensures { CurveAnswers (text_of text.now) result }
{
    match text {
        CurveText::Bucket { burst, rate } => bucket(alloc, *burst, *rate),
        CurveText::Stair {
            packet,
            period,
            jitter,
        } => stair(alloc, *packet, *period, *jitter),
        CurveText::RateLatency { rate, latency } => rate_latency(alloc, *rate, *latency),
        CurveText::Gate { rate, cycle, slot } => gate(alloc, *rate, *cycle, *slot),
        CurveText::Listed {
            pieces,
            tail,
            use_as,
        } => listed(alloc, pieces, *tail, *use_as),
    }
}

/// The limit that a fault is.
fn limit_of(fault: CurveFault) -> Option<OverLimit>
    ensures { result ≡ limit_of fault }
{
    match fault {
        CurveFault::Op(limit) => Some(limit),
        _ => None,
    }
}

fn refused(alloc: Global, refusal: CurveRefusal, place: &str) -> DraftFault
    ensures { IsFault (NetKind.M9 refusal) place.now result }
{
    fault_at(alloc, NetKind::M9(refusal), place)
}

/// What is told of a fault that is no limit, of the text at a place.
fn told(alloc: Global, fault: CurveFault, place: &str) -> DraftFault
    requires { limit_of fault ≡ None }
    ensures { IsToldAs fault place.now result }
{
    match fault {
        CurveFault::Negative => refused(alloc, CurveRefusal::Negative, place),
        CurveFault::ZeroPeriod => refused(alloc, CurveRefusal::ZeroPeriod, place),
        CurveFault::NotRising => refused(alloc, CurveRefusal::NotRising, place),
        CurveFault::NotContinuous => refused(alloc, CurveRefusal::NotContinuous, place),
        CurveFault::NotZeroAtStart => refused(alloc, CurveRefusal::NotZeroAtStart, place),
        CurveFault::NoMemory => DraftFault::NoMemory,
        CurveFault::Op(_) => unreachable!(),
    }
}

/// The curve of a text, or the limit that it is over; a fault at its table's place where it is refused otherwise. Want
/// of memory says that the curve is over no limit.
pub(crate) fn curve_of(
    alloc: Global,
    place: &str,
    text: CurveText,
) -> Result<CurveDraft, DraftFault>
    ensures value { Gives (λ c. text_of c.text) result (curve_at place.now (text_of text)) }
    ensures made { IfOk result IsMadeDraft }
    ensures same { IfOk result (λ c. c.text ≡ text) }
    ensures memory { result ≡ Err DraftFault.NoMemory → IsOverNone (text_of text) }
{
    match made(alloc, &text) {
        Ok(curve) => Ok(CurveDraft {
            text,
            made: Ok(curve),
        }),
        Err(fault) => match limit_of(fault) {
            Some(limit) => Ok(CurveDraft {
                text,
                made: Err(limit),
            }),
            None => Err(told(alloc, fault, place)),
        },
    }
}
