//! The parts of a server's span: how long it works on all packets that pass it, its closed times, and its link.

ghost use Rattle.std.specs.Prelude.{◌≡◌, pos, IfSome, IsSome};
ghost use Rattle.rational.specs.Rational.{int, ◌+ℚ◌, ◌-ℚ◌, neg_ℚ, ◌*ℚ◌, ◌/ℚ◌, ◌≤ℚ◌, ◌<ℚ◌};
ghost use Rattle.rational.specs.Ratio.{IsSmall, SumFits};
ghost use Rattle.fraction128.specs.wide_sums.Sums.{IsFromZero};
ghost use Rattle.run_laws.specs.Cards.{whole};
ghost use Rattle.net_model.specs.stated_runs.FromTraces.{gate_of, stalls_at};
ghost use Rattle.sim_bounds.specs.Horizons.{stalled_for};
ghost use Rattle.sim_bounds.specs.Way.{plain_time};
ghost use Rattle.sim_bounds.specs.sim_gauge.Steps.{StallsFit};

use crate::window_numbers::{minus, over, plus};
use fraction128::Frac;
use fraction128::wide_sums::Product;
use net_model::{ServiceKind, Stall};

/// How long a server works on so many bits while it is open.
pub(crate) fn work_time(rate: Frac, bits: u64) -> Option<Frac>
    requires { int (pos 0) <ℚ rate }
    ensures value { IfSome result (λ t. t ≡ whole bits /ℚ rate) }
    ensures from_zero { IfSome result (λ t. int (pos 0) ≤ℚ t) }
    ensures fits { IsSmall (whole bits /ℚ rate) → IsSome result }
{
    over(Frac::from_whole(bits as i128), rate)
}

/// How long a gate works on what takes it so long when it is open, as a product. None only where its cycle over its
/// slot does not fit.
pub(crate) fn gate_product(cycle: Frac, slot: Frac, time: Frac) -> Option<Product>
    requires some { int (pos 0) <ℚ slot }
    requires within { slot ≤ℚ cycle }
    requires from_zero { int (pos 0) ≤ℚ time }
    ensures value { IfSome result (λ p. p.left *ℚ p.right ≡ (cycle /ℚ slot) *ℚ time) }
    ensures from_zero { IfSome result IsFromZero }
    ensures fits { IsSmall (cycle /ℚ slot) → IsSome result }
{
    match over(cycle, slot) {
        Some(ratio) => Some(Product {
            left: ratio,
            right: time,
        }),
        None => None,
    }
}

/// The product of a server without a gate.
pub(crate) fn no_product() -> Product
    ensures value { result.left *ℚ result.right ≡ int (pos 0) }
    ensures from_zero { IsFromZero result }
{
    Product {
        left: Frac::zero(),
        right: Frac::zero(),
    }
}

/// A gate's cycle, and where there is no gate the time for the work.
pub(crate) fn plain_time(kind: &ServiceKind, time: Frac) -> Frac
    ensures { result ≡ plain_time (gate_of kind.now) time }
{
    match kind {
        ServiceKind::Gate { cycle, .. } => *cycle,
        ServiceKind::Latency(_) => time,
        ServiceKind::Listed => time,
    }
}

/// The length of a stall more.
fn with_stall(sum: Frac, stall: &Stall) -> Option<Frac>
    ensures value { IfSome result (λ t. t ≡ sum +ℚ (stall.now.end -ℚ stall.now.start)) }
    ensures fits { SumFits stall.now.end (neg_ℚ stall.now.start) → SumFits sum (stall.now.end -ℚ stall.now.start)
        → IsSome result }
{
    match minus(stall.end, stall.start) {
        Some(length) => plus(sum, length),
        None => None,
    }
}

/// The lengths of the stalls of a server.
pub(crate) fn stalled(stalls: &[Stall], server: u32) -> Option<Frac>
    ensures value { IfSome result (λ t. t ≡ stalled_for (stalls_at server stalls.now)) }
    ensures fits { StallsFit (int (pos 0)) (stalls_at server stalls.now) → IsSome result }
{
    let mut sum = Frac::zero();
    for stall in stalls {
        if stall.server == server {
            match with_stall(sum, stall) {
                Some(more) => sum = more,
                None => return None,
            }
        }
    }
    Some(sum)
}
