//! The lines of links.

ghost use Rattle.std.specs.Prelude.{◌≡◌, ◌+◌, ◌*◌, ◌^◌, ◌<◌, ◌≤◌, ◌⊎◌, MatchOption, IfSome};
ghost use Rattle.std.specs.Int.{div_ceil};
ghost use Rattle.arrival_lines.specs.Links.{IsAboveStair};

use crate::grid::{Line, SECOND, short, times};

/// Bursts of so many grains are not told.
const ENDLESS: u128 = 1 << 58;

/// The line of these numbers; none where its rate does not fit 64 bits or its burst is 2^58 grains or more.
fn line_of(burst: u128, rate: u128) -> Option<Line>
    ensures { MatchOption result ((2 ^ 64 ≤ rate) ⊎ (2 ^ 58 ≤ burst)) (λ line. (line.rate ≡ rate) × (line.burst ≡ burst)) }
{
    let rate = short(rate)?;
    if burst >= ENDLESS {
        return None;
    }
    Some(Line {
        burst: burst as u64,
        rate,
    })
}

/// The rate of packets of at most so many grains, one each so many picoseconds: in grains a second, rounded up.
pub fn link_rate(packet: u64, period: u64) -> u128
    requires { 0 < period }
    ensures { result ≡ div_ceil (packet * 10 ^ 12) period }
{
    (packet as u128 * SECOND).div_ceil(period as u128)
}

/// The line of a link at its first port: of packets of at most so many grains, one each so many picoseconds, each up to the jitter
/// early. None where its rate does not fit 64 bits (no port is as fast) or its burst is 2^58 grains or more.
pub fn link_line(packet: u64, period: u64, jitter: u64) -> Option<Line>
    requires { 0 < period }
    ensures least { let rate = div_ceil (packet * 10 ^ 12) period in let burst = packet + div_ceil (rate * jitter) (10 ^ 12) in
        MatchOption result ((2 ^ 64 ≤ rate) ⊎ (2 ^ 58 ≤ burst)) (λ line. (line.rate ≡ rate) × (line.burst ≡ burst)) }
    ensures above { IfSome result (λ line. IsAboveStair packet period jitter line) }
{
    let rate = short(link_rate(packet, period))?;
    let early = times(rate, jitter).div_ceil(SECOND);
    line_of(packet as u128 + early, rate as u128)
}

/// The load of rates together at a service of a rate: in thousandths, rounded up; none where nothing is served.
pub fn load(rates: u128, rate: u64) -> Option<u128>
    requires { rates < 2 ^ 100 }
    ensures { MatchOption result (rate ≡ 0) (λ load. load ≡ div_ceil (rates * 1000) rate) }
{
    if rate == 0 {
        return None;
    }
    Some((rates * 1000).div_ceil(rate as u128))
}
