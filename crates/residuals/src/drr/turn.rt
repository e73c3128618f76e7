//! The two numbers of a queue in a round.

ghost use Rattle.std.specs.Prelude.{◌≡◌, ◌+◌, ◌-◌, ◌*◌, ◌<◌, ◌≤◌, ◌^◌, length, sum};
ghost use Rattle.rational.specs.Rational.{◌/ℚ◌};
ghost use Rattle.run_laws.specs.Cards.{whole};
ghost use Rattle.residuals.specs.calls.DrrCalls.{AreQueues, share_in, owed_in};

use fraction128::Frac;

/// What a queue gets of each bit of service, and how many bits are taken from that first.
#[derive(Clone, Copy)]
pub(crate) struct Turn {
    pub share: Frac,
    pub owed: Frac,
}

// n / d. Both are far below 2^127, so that nothing is too big.
fn quotient(n: u64, d: u64) -> Frac
    requires { 0 < d }
    ensures { result ≡ whole n /ℚ whole d }
{
    Frac::new(n as i128, d as i128).unwrap()
}

fn quanta_sum(quanta: &[u64]) -> u64
    requires { sum quanta.now < 2 ^ 64 }
    ensures { result ≡ sum quanta.now }
{
    quanta.iter().sum()
}

// The sum of the longest packets.
fn longest_sum(longest: &[u32]) -> u64
    requires { length longest.now ≤ 8 }
    ensures sum { result ≡ sum longest.now }
    ensures small { result ≤ 2 ^ 35 }
{
    let mut total: u64 = 0;
    for bits in longest {
        total += u64::from(*bits);
    }
    total
}

// What is owed, times the sum of the quanta: while a queue has its turn p times, each other queue may have it p + 1
// times, and may have saved up to a packet of its own.
fn owed_bits(own: u64, packet: u64, all: u64, packets: u64) -> u64
    requires quantum { own ≤ all }
    requires quanta { all ≤ 2 ^ 27 }
    requires length { packet ≤ packets }
    requires lengths { packets ≤ 2 ^ 35 }
    ensures { result ≡ own * (packets - packet) + (all - own) * (own + packet) }
{
    let saved = own * (packets - packet);
    let turns = (all - own) * (own + packet);
    saved + turns
}

/// The share of a queue, and what is owed to the others before it. Nothing is too big for a fraction.
pub(crate) fn turn_of(quanta: &[u64], longest: &[u32], queue: usize) -> Turn
    requires queues { AreQueues quanta.now longest.now }
    requires queue { queue < length quanta.now }
    ensures share { result.share ≡ share_in quanta.now queue }
    ensures owed { result.owed ≡ owed_in quanta.now longest.now queue }
{
    let all = quanta_sum(quanta);
    let packets = longest_sum(longest);
    let own = quanta[queue];
    let packet = u64::from(longest[queue]);
    Turn {
        share: quotient(own, all),
        owed: quotient(owed_bits(own, packet, all, packets), all),
    }
}
