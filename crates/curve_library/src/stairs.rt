//! Stairs of packets.

ghost use Rattle.std.specs.Prelude.{◌≡◌, ◌≢◌, suc, ◌+◌, ◌*◌, ◌<◌, ◌≤◌, ◌^◌, pos, IfOk, Err, MatchOption};
ghost use Rattle.rational.specs.Rational.{ℚ, int, ◌+ℚ◌, ◌-ℚ◌, ◌*ℚ◌, ◌≤ℚ◌, ◌<ℚ◌};
ghost use Rattle.upp_curve.specs.Curve.{value_at};
ghost use Rattle.min_plus.specs.Functions.{zero_q};
ghost use Rattle.upp_curve.specs.Kinds.{flat, steps, stair};
ghost use Rattle.min_plus.specs.Formulas.{stair_value};
ghost use Rattle.upp_curve.specs.Normal.{IsNormal};
ghost use Rattle.upp_limits.specs.declared.own_limits.OverLimit.TheVariants.{TooMany};
ghost use Rattle.curve_library.specs.Causes.{KeepsOwnLimits, KeepsCauses, AnswersFirst};
ghost use Rattle.curve_library.specs.Parts.{SecondFits};

use crate::fault::CurveFault;
use crate::formed::{flat, of_normal, straight};
use crate::shares::{PAST_LARGEST, whole, whole_periods};
use crate::signs::{is_negative, is_positive};
use fraction128::Frac;
use std::alloc::Global;
use upp_curve::affine_segment::Piece;
use upp_curve::{Curve, Tail};
use upp_limits::OverLimit;

/// The first packet and so many more that come early; None where that is 2^127 or more.
fn packets(packet: u32, early: u128) -> Option<Frac>
    requires { early < 2 ^ 127 }
    ensures { MatchOption result (2 ^ 127 ≤ packet * suc early) (λ f. f ≡ int (pos packet) *ℚ int (pos (suc early))) }
{
    match u128::from(packet).checked_mul(early + 1) {
        Some(n) if n < PAST_LARGEST => Some(whole(n)),
        _ => None,
    }
}

/// The second step: one packet more, where a period is over that began so much before 0.
fn second_step(period: Frac, late: Frac, first: Frac, rise: Frac) -> Option<Piece>
    ensures { MatchOption result (¬ (SecondFits period late first rise))
        (λ p. p ≡ flat (period -ℚ late) (first +ℚ rise)) }
{
    let Ok(start) = Frac::sub(period, late) else {
        return None;
    };
    let Ok(level) = Frac::add(first, rise) else {
        return None;
    };
    Some(flat(start, level))
}

/// The stair of these numbers. Where one more does not fit, the gauge is past its limit.
fn formed_steps(
    alloc: Global,
    rise: Frac,
    period: Frac,
    first: Frac,
    late: Frac,
) -> Result<Curve, CurveFault>
    requires normal { IsNormal (steps rise period first late) }
    requires late { zero_q ≤ℚ late }
    ensures { KeepsOwnLimits (steps rise period first late) result }
{
    let rank = Frac::zero();
    let tail = Tail::Periodic { rank, period, rise };
    if !is_positive(late) {
        return of_normal(alloc, &[flat(rank, first)], tail);
    }
    match second_step(period, late, first, rise) {
        Some(second) => of_normal(alloc, &[flat(rank, first), second], tail),
        None => Err(CurveFault::Op(OverLimit::TooWide)),
    }
}

// A stair of packets above 0. Where the jitter is no whole number of periods and a rest that fit, or the first step
// does not fit, the gauge is past its limit.
fn stair_steps(alloc: Global, packet: u32, period: Frac, jitter: Frac) -> Result<Curve, CurveFault>
    requires packet { 0 < packet }
    requires period { zero_q <ℚ period }
    requires jitter { zero_q ≤ℚ jitter }
    ensures { KeepsOwnLimits (stair (int (pos packet)) period jitter) result }
{
    let Some(share) = whole_periods(jitter, period) else {
        return Err(CurveFault::Op(OverLimit::TooWide));
    };
    match packets(packet, share.count) {
        Some(first) => formed_steps(alloc, whole(u128::from(packet)), period, first, share.rest),
        None => Err(CurveFault::Op(OverLimit::TooWide)),
    }
}

// A stair of any numbers.
fn tested_stair(alloc: Global, packet: u32, period: Frac, jitter: Frac) -> Result<Curve, CurveFault>
    ensures { KeepsCauses (jitter <ℚ zero_q) (period ≤ℚ zero_q) (stair (int (pos packet)) period jitter) result }
{
    if is_negative(jitter) {
        return Err(CurveFault::Negative);
    }
    if !is_positive(period) {
        return Err(CurveFault::ZeroPeriod);
    }
    if packet == 0 {
        return straight(alloc, Frac::zero());
    }
    stair_steps(alloc, packet, period, jitter)
}

/// One packet each period, each up to the jitter early: packet (floor ((t + jitter) / period) + 1) at each time t
/// from 0 on. Refused with Negative exactly where the jitter is below 0, past that with ZeroPeriod exactly where
/// the period is not above 0, and past that with TooWide exactly where the curve's own gauge is 2^120 or more,
/// however wide the jitter is.
pub fn stair(alloc: Global, packet: u32, period: Frac, jitter: Frac) -> Result<Curve, CurveFault>
    ensures causes { KeepsCauses (jitter <ℚ zero_q) (period ≤ℚ zero_q) (stair (int (pos packet)) period jitter) result }
    ensures first { AnswersFirst (jitter <ℚ zero_q) (period ≤ℚ zero_q) (stair (int (pos packet)) period jitter) result }
    ensures value { IfOk result (λ c. (t : ℚ) → zero_q ≤ℚ t
        → value_at c t ≡ stair_value (int (pos packet)) period jitter t) }
    ensures few { result ≢ Err (CurveFault.Op TooMany) }
{
    tested_stair(alloc, packet, period, jitter)
}
