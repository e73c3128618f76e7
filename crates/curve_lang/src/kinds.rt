//! Curves of the four kinds, from the numbers of a script.

ghost use Rattle.std.specs.Prelude.{◌≡◌, ◌⊎◌, ◌≤◌, ◌^◌, pos, IfNone, IfSome};
ghost use Rattle.rational.specs.Rational.{int};
ghost use Rattle.upp_curve.specs.Kinds.{bucket, rate_latency, stair, gate};
ghost use Rattle.min_plus.specs.Functions.{zero_q};
ghost use Rattle.curve_library.specs.Causes.{OneNegative};
ghost use Rattle.curve_lang.specs.Finding.{Gives, BucketFinds, KindFinds, PairFinds, TripleFinds, IsPacket, NoStair, NoGate, zero_curve};
ghost use Rattle.curve_lang.specs.Views.{found};

use crate::sharing::kept_kind;
use curve_library::{bucket, gate, rate_latency, stair};
use fraction128::Frac;
use input_texts::curve_script::{LangKind, NumberPair, NumberTriple};
use std::alloc::Global;
use std::rc::Rc;
use upp_curve::Curve;

/// The most bits of a stair's packet, 2^24.
const MOST_BITS: i128 = 16777216;

/// The zero curve.
pub(crate) fn zero_found(alloc: Global) -> Result<Rc<Curve>, LangKind>
    ensures { Gives zero_curve (found result) }
{
    kept_kind(alloc, bucket(alloc, Frac::zero(), Frac::zero()))
}

fn bucket_found(alloc: Global, burst: Frac, rate: Frac) -> Result<Rc<Curve>, LangKind>
    ensures { BucketFinds (OneNegative burst rate) (bucket burst rate) (found result) }
{
    kept_kind(alloc, bucket(alloc, burst, rate))
}

fn latency_found(alloc: Global, rate: Frac, latency: Frac) -> Result<Rc<Curve>, LangKind>
    ensures { KindFinds (OneNegative rate latency) (rate_latency rate latency) (found result) }
{
    kept_kind(alloc, rate_latency(alloc, rate, latency))
}

fn gate_found(alloc: Global, rate: Frac, cycle: Frac, slot: Frac) -> Result<Rc<Curve>, LangKind>
    ensures { KindFinds (NoGate rate cycle slot) (gate rate cycle slot) (found result) }
{
    kept_kind(alloc, gate(alloc, rate, cycle, slot))
}

// The bits of a packet, where a number is one.
fn packet_bits(x: Frac) -> Option<u32>
    ensures none { IfNone result (IsPacket x → ⊥) }
    ensures bits { IfSome result (λ n. (x ≡ int (pos n)) × IsPacket x) }
{
    if x.denominator() != 1 {
        return None;
    }
    let bits = x.numerator();
    if bits < 1 || bits > MOST_BITS {
        return None;
    }
    Some(bits as u32)
}

fn stair_found(
    alloc: Global,
    packet: Frac,
    period: Frac,
    jitter: Frac,
) -> Result<Rc<Curve>, LangKind>
    ensures { KindFinds (NoStair packet period jitter) (stair packet period jitter) (found result) }
{
    let Some(bits) = packet_bits(packet) else {
        return Err(LangKind::C7);
    };
    kept_kind(alloc, stair(alloc, bits, period, jitter))
}

/// The curve of a kind with two numbers.
pub(crate) fn pair_found(
    alloc: Global,
    kind: NumberPair,
    x: Frac,
    y: Frac,
) -> Result<Rc<Curve>, LangKind>
    ensures { PairFinds kind x y (found result) }
{
    match kind {
        NumberPair::Bucket => bucket_found(alloc, x, y),
        NumberPair::Latency => latency_found(alloc, x, y),
    }
}

/// The curve of a kind with three numbers.
pub(crate) fn triple_found(
    alloc: Global,
    kind: NumberTriple,
    x: Frac,
    y: Frac,
    z: Frac,
) -> Result<Rc<Curve>, LangKind>
    ensures { TripleFinds kind x y z (found result) }
{
    match kind {
        NumberTriple::Stair => stair_found(alloc, x, y, z),
        NumberTriple::Gate => gate_found(alloc, x, y, z),
    }
}
