//! Services: of a rate after a latency, of a gate, and what they leave.

ghost use Rattle.std.specs.Prelude.{◌≡◌, ◌+◌, ◌-◌, ◌*◌, ◌/◌, ◌^◌, ◌<◌, ◌≤◌, ◌⊎◌, All, MatchOption, IfOk, IfSome, filter_map};
ghost use Rattle.std.specs.Int.{div_ceil};
ghost use Rattle.arrival_lines.specs.Services.{IsBelowLate, IsBelowGate, IsLeft, IsLeftOfOne, IsShare, left_of};

use crate::grid::{Gate, Line, SECOND, Service, short, times};
use std::alloc::{AllocError, Global};

/// The service of a rate after a latency in picoseconds. None where its debt does not fit 64 bits.
pub fn late_service(rate: u64, latency: u64) -> Option<Service>
    ensures most { let debt = div_ceil (rate * latency) (10 ^ 12) in
        MatchOption result (2 ^ 64 ≤ debt) (λ s. (s.rate ≡ rate) × (s.debt ≡ debt)) }
    ensures below { IfSome result (λ s. IsBelowLate rate latency s) }
{
    let debt = short(times(rate, latency).div_ceil(SECOND))?;
    Some(Service { rate, debt })
}

/// The service of a rate behind a gate, of which the latency, in picoseconds, may be lost while the gate is open. None where its debt
/// does not fit 64 bits.
pub fn gate_service(rate: u64, latency: u64, gate: Gate) -> Option<Service>
    requires some { 0 < gate.cycle }
    requires slot { gate.slot ≤ gate.cycle }
    ensures most { let slower = rate * gate.slot / gate.cycle in
        let debt = div_ceil (rate * latency) (10 ^ 12) + div_ceil (slower * (gate.cycle - gate.slot)) (10 ^ 12) in
        MatchOption result (2 ^ 64 ≤ debt) (λ s. (s.rate ≡ slower) × (s.debt ≡ debt)) }
    ensures below { IfSome result (λ s. IsBelowGate rate latency gate s) }
{
    let slower = (times(rate, gate.slot) / gate.cycle as u128) as u64;
    let late = times(rate, latency).div_ceil(SECOND);
    let closed = times(slower, gate.cycle - gate.slot).div_ceil(SECOND);
    let debt = short(late + closed)?;
    Some(Service { rate: slower, debt })
}

/// What the service leaves when at most the line is served first, and one packet of so many grains besides; none where the line is as
/// fast as the service, or the debt does not fit 64 bits.
pub fn left_service(service: Service, line: Line, packet: u64) -> Option<Service>
    ensures is { result ≡ left_of service packet line }
    ensures below { IfSome result (λ left. IsLeft service line packet left) }
{
    if line.rate >= service.rate {
        return None;
    }
    let debt = short(service.debt as u128 + line.burst as u128 + packet as u128)?;
    Some(Service {
        rate: service.rate - line.rate,
        debt,
    })
}

/// What the service leaves by each of the lines, in their order, where it leaves something.
pub fn left_services(
    alloc: Global,
    service: Service,
    lines: &[Line],
    packet: u64,
) -> Result<Vec<Service>, AllocError>
    ensures each { IfOk result (λ v. v.items ≡ filter_map (left_of service packet) lines.now) }
    ensures below { IfOk result (λ v. All (IsLeftOfOne service lines.now packet) v.items) }
{
    let mut services = Vec::new(alloc);
    for line in lines {
        if let Some(left) = left_service(service, *line, packet) {
            services.push(left)?;
        }
    }
    Ok(services)
}

/// The share `part` of `all` of the service, less what is owed of so many grains over the same whole: what deficit round robin leaves.
/// None where a number does not fit.
pub fn share_service(service: Service, part: u64, all: u64, owed: u128) -> Option<Service>
    requires { 0 < all }
    ensures most { let rate = service.rate * part / all in let debt = div_ceil (service.debt * part + owed) all in
        MatchOption result ((2 ^ 64 ≤ rate) ⊎ (2 ^ 64 ≤ debt) ⊎ (2 ^ 128 ≤ service.debt * part + owed))
        (λ left. (left.rate ≡ rate) × (left.debt ≡ debt)) }
    ensures below { IfSome result (λ left. IsShare service part all owed left) }
{
    let rate = short(times(service.rate, part) / all as u128)?;
    let debt = short(
        times(service.debt, part)
            .checked_add(owed)?
            .div_ceil(all as u128),
    )?;
    Some(Service { rate, debt })
}
