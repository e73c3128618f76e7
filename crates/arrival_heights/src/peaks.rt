//! How far heights are above many rates at most: the greater a rate is, the earlier is the height that is furthest above it.

ghost use Rattle.std.specs.Prelude.{◌≡◌, ℕ, ◌-◌, ◌*◌, ◌^◌, ◌<◌, ◌≤◌, ◌↔◌, max, map, ◌++◌, All, IsTrue, IfOk, OnOk, length};
ghost use Rattle.std.specs.List.Sorted.{IsNonDecreasing};
ghost use Rattle.arrival_heights.specs.Heights.{AreMoments, IsMoment, most_ahead};
ghost use Rattle.arrival_heights.specs.Peaks.{AreAsHigh, AreTimed, IsFirstGreatest, IsLower, excess_of};

use crate::heights::{Height, ahead, greatest_ahead, sooner, times};
use arrival_lines::Service;
use std::alloc::{AllocError, Global};

/// Of fewer heights or rates no table is made.
const FEW: usize = 8;

/// Heights, and how far they are above each of some rates at most.
#[derive(Drop)]
pub struct Peaks {
    /// By their times where they and the rates are many; else as they were given.
    pub heights: Vec<Height>,
    /// In rising order.
    rates: Vec<u64>,
    most: Vec<u128>,
    ghost are: { most.items ≡ map (λ rate. most_ahead rate heights.items) rates.items },
}

/// How far the height is above the rate, in grains over the time's `under`; 0 where it is not.
fn excess(height: Height, rate: u64) -> u128
    requires at { IsMoment height.at }
    requires rate { rate < 2 ^ 62 }
    ensures { result ≡ excess_of rate height }
{
    height.grains.saturating_sub(times(rate, height.at.over))
}

/// Whether the one fraction is less than the other.
fn is_less(over: u128, under: u64, other_over: u128, other_under: u64) -> bool
    requires under { 0 < under }
    requires other_under { 0 < other_under }
    ensures { IsTrue result ↔ (over * other_under < other_over * under) }
{
    let whole = over / under as u128;
    let other_whole = other_over / other_under as u128;
    if whole != other_whole {
        return whole < other_whole;
    }
    let rest = over % under as u128;
    let other_rest = other_over % other_under as u128;
    rest * (other_under as u128) < other_rest * under as u128
}

/// Whether the other height is further above the rate.
fn is_lower(one: Height, other: Height, rate: u64) -> bool
    requires one { IsMoment one.at }
    requires other { IsMoment other.at }
    requires rate { rate < 2 ^ 62 }
    ensures { IsTrue result ↔ IsLower rate one other }
{
    is_less(
        excess(one, rate),
        one.at.under,
        excess(other, rate),
        other.at.under,
    )
}

/// The place of the first of those heights that are furthest above the rate.
fn first_greatest(heights: &[Height], rate: u64) -> usize
    requires at { AreMoments heights.now }
    requires some { 0 < length heights.now }
    requires rate { rate < 2 ^ 62 }
    ensures { IsFirstGreatest heights.now rate (length heights.now) result }
{
    let mut place: usize = 0;
    for (i, height) in heights.iter().enumerate() {
        if is_lower(heights[place], *height, rate) {
            place = i;
        }
    }
    place
}

/// Adds how far the heights, in the order of their times, are above each of some rising rates at most. Above the lesser
/// rates none is further than one from the middle rate's place on, and above the greater ones than one up to there.
fn add_most(heights: &[Height], rates: &[u64], most: &mut Vec<u128>) -> Result<(), AllocError>
    requires at { AreMoments heights.now }
    requires order { AreTimed heights.now }
    requires some { 0 < length heights.now }
    requires rates { All (λ rate. rate < 2 ^ 62) rates.now }
    requires rising { IsNonDecreasing rates.now }
    ensures { OnOk result (most.new.items ≡ most.old.items ++ map (λ rate. most_ahead rate heights.now) rates.now) }
{
    if rates.is_empty() {
        return Ok(());
    }
    let middle = rates.len() / 2;
    let rate = rates[middle];
    let place = first_greatest(heights, rate);
    let (late, early) = (&heights[place..], &heights[..place + 1]);
    let (lesser, greater) = (&rates[..middle], &rates[middle + 1..]);
    add_most(late, lesser, most)?;
    most.push(ahead(heights[place], rate))?;
    add_most(early, greater, most)?;
    Ok(())
}

/// The rates of the services.
fn each_rate(alloc: Global, services: &[Service]) -> Result<Vec<u64>, AllocError>
    ensures { IfOk result (λ v. v.items ≡ map (λ s. s.rate) services.now) }
{
    services.iter().map(|s| s.rate).collect(alloc)
}

/// The rates of the services, in rising order.
fn rates_of(alloc: Global, services: &[Service]) -> Result<Vec<u64>, AllocError>
    requires { All (λ s. s.rate < 2 ^ 62) services.now }
    ensures small { IfOk result (λ v. All (λ rate. rate < 2 ^ 62) v.items) }
    ensures rising { IfOk result (λ v. IsNonDecreasing v.items) }
{
    let mut rates = each_rate(alloc, services)?;
    rates.sort_unstable();
    Ok(rates)
}

/// The heights, and how far they are above the rate of each service at most; the latter only of many.
pub fn peaks_of(
    alloc: Global,
    mut heights: Vec<Height>,
    services: &[Service],
) -> Result<Peaks, AllocError>
    requires at { AreMoments heights.items }
    requires rates { All (λ s. s.rate < 2 ^ 62) services.now }
    ensures at { IfOk result (λ p. AreMoments p.heights.items) }
    ensures same { IfOk result (λ p. AreAsHigh p.heights.items heights.items) }
{
    let mut most = Vec::new(alloc);
    if heights.len().min(services.len()) < FEW {
        return Ok(Peaks {
            heights,
            rates: Vec::new(alloc),
            most,
        });
    }
    heights.sort_by(|one, other| sooner(one.at, other.at))?;
    let rates = rates_of(alloc, services)?;
    add_most(&heights, &rates, &mut most)?;
    Ok(Peaks {
        heights,
        rates,
        most,
    })
}

impl Peaks {
    /// By how many grains the heights are above the rate at most, rounded up; 0 where none is.
    pub fn ahead(&self, rate: u64) -> u128
        requires at { AreMoments self.now.heights.items }
        requires rate { rate < 2 ^ 62 }
        ensures { result ≡ most_ahead rate self.now.heights.items }
    {
        let place = self.rates.partition_point(|known| *known < rate);
        match self.rates.get(place) {
            Some(known) if *known == rate => self.most[place],
            _ => greatest_ahead(&self.heights, rate),
        }
    }
}
