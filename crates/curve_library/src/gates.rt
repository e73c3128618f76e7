//! Gates.

ghost use Rattle.std.specs.Prelude.{◌≡◌, ◌≢◌, ◌≤◌, ◌^◌, IfOk, Err, MatchOption};
ghost use Rattle.rational.specs.Rational.{ℚ, ◌≤ℚ◌, ◌<ℚ◌};
ghost use Rattle.upp_curve.specs.Curve.{value_at};
ghost use Rattle.min_plus.specs.Functions.{zero_q};
ghost use Rattle.upp_curve.specs.Kinds.{gated, gate};
ghost use Rattle.min_plus.specs.Formulas.{gate_value};
ghost use Rattle.upp_limits.specs.Limits.{own_gauge};
ghost use Rattle.upp_limits.specs.declared.own_limits.OverLimit.TheVariants.{TooMany};
ghost use Rattle.curve_library.specs.Causes.{OneNegative, NoSlot, KeepsOwnLimits, KeepsCauses, AnswersFirst};
ghost use Rattle.curve_library.specs.Parts.{AreGateNumbers};

use crate::fault::CurveFault;
use crate::formed::{flat, of_normal, piece, straight};
use crate::signs::{is_negative, is_positive};
use fraction128::{Frac, is_less};
use std::alloc::Global;
use upp_curve::{Curve, Tail};
use upp_limits::OverLimit;

/// How long a gate is closed in each cycle, what its rate would make in that time, and what it makes in a slot.
#[derive(Clone, Copy)]
pub(crate) struct GateNumbers {
    pub closed: Frac,
    pub missed: Frac,
    pub rise: Frac,
}

// The numbers of a gate. Where one does not fit, the gauge is past its limit.
fn gate_numbers(rate: Frac, cycle: Frac, slot: Frac) -> Option<GateNumbers>
    requires rate { zero_q <ℚ rate }
    requires slot { zero_q <ℚ slot }
    requires closes { slot <ℚ cycle }
    ensures { MatchOption result (2 ^ 120 ≤ own_gauge (gated rate cycle slot)) (AreGateNumbers rate cycle slot) }
{
    let Ok(closed) = Frac::sub(cycle, slot) else {
        return None;
    };
    let Ok(missed) = Frac::mul(rate, closed) else {
        return None;
    };
    let Ok(rise) = Frac::mul(rate, slot) else {
        return None;
    };
    Some(GateNumbers {
        closed,
        missed,
        rise,
    })
}

// A gate with a rate above 0 whose slot is shorter than its cycle.
fn gated(alloc: Global, rate: Frac, cycle: Frac, slot: Frac) -> Result<Curve, CurveFault>
    requires rate { zero_q <ℚ rate }
    requires slot { zero_q <ℚ slot }
    requires closes { slot <ℚ cycle }
    ensures { KeepsOwnLimits (gated rate cycle slot) result }
{
    let Some(n) = gate_numbers(rate, cycle, slot) else {
        return Err(CurveFault::Op(OverLimit::TooWide));
    };
    let rank = Frac::zero();
    let pieces = [
        flat(rank, rank),
        piece(n.closed, rank, n.missed.negated(), rate),
    ];
    let tail = Tail::Periodic {
        rank,
        period: cycle,
        rise: n.rise,
    };
    of_normal(alloc, &pieces, tail)
}

// A gate with a slot that fits its cycle.
fn nonneg_gate(alloc: Global, rate: Frac, cycle: Frac, slot: Frac) -> Result<Curve, CurveFault>
    requires rate { zero_q ≤ℚ rate }
    requires slot { zero_q <ℚ slot }
    requires fits { slot ≤ℚ cycle }
    ensures { KeepsOwnLimits (gate rate cycle slot) result }
{
    if !is_positive(rate) {
        return straight(alloc, rate);
    }
    if !is_less(slot, cycle) {
        return straight(alloc, rate);
    }
    gated(alloc, rate, cycle, slot)
}

// A gate of any numbers.
fn tested_gate(alloc: Global, rate: Frac, cycle: Frac, slot: Frac) -> Result<Curve, CurveFault>
    ensures { KeepsCauses (OneNegative rate slot) (NoSlot cycle slot) (gate rate cycle slot) result }
{
    if is_negative(rate) {
        return Err(CurveFault::Negative);
    }
    if is_negative(slot) {
        return Err(CurveFault::Negative);
    }
    if !is_positive(cycle) {
        return Err(CurveFault::ZeroPeriod);
    }
    if !is_positive(slot) {
        return Err(CurveFault::ZeroPeriod);
    }
    if is_less(cycle, slot) {
        return Err(CurveFault::ZeroPeriod);
    }
    nonneg_gate(alloc, rate, cycle, slot)
}

/// A rate while a gate is open, for one slot at the end of each cycle: rate max (floor (t / cycle) slot, t - ceil
/// (t / cycle) (cycle - slot)) at each time t from 0 on. Refused with Negative exactly where the rate or the slot
/// is below 0; past that with ZeroPeriod exactly where the cycle is not above 0, the slot is 0, or the slot is
/// above the cycle; past that with TooWide exactly where the curve's own gauge is 2^120 or more.
pub fn gate(alloc: Global, rate: Frac, cycle: Frac, slot: Frac) -> Result<Curve, CurveFault>
    ensures causes { KeepsCauses (OneNegative rate slot) (NoSlot cycle slot) (gate rate cycle slot) result }
    ensures first { AnswersFirst (OneNegative rate slot) (NoSlot cycle slot) (gate rate cycle slot) result }
    ensures value { IfOk result (λ c. (t : ℚ) → zero_q ≤ℚ t → value_at c t ≡ gate_value rate cycle slot t) }
    ensures few { result ≢ Err (CurveFault.Op TooMany) }
{
    tested_gate(alloc, rate, cycle, slot)
}
