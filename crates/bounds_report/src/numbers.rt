//! Numbers of a report.

ghost use Rattle.std.specs.Prelude.{◌≡◌, ◌≤◌, ◌<◌, ◌*◌, ◌^◌, ◌++◌, IfOk, IfSome, OnOk};
ghost use Rattle.std.specs.Fmt.{decimal};
ghost use Rattle.std.specs.String.{string_bytes};
ghost use Rattle.bounds_report.specs.Numbers as spec;
ghost use Rattle.table_cells.specs.Amounts.{IsAmount};

use fraction128::gcd_of;
use std::alloc::{AllocError, Global};
use table_cells::Amount;

// Puts so many thousandths behind a text, with three digits behind the point.
#[tactic(auto, using(crate::proofs::Digits::digits_of_rest))]
fn add_long(into: &mut String, number: u128) -> Result<(), AllocError>
    ensures { OnOk result (string_bytes into.new ≡ string_bytes into.old ++ spec.thousandths number) }
{
    let whole = number / 1000;
    let rest = number % 1000;
    let (first, second, third) = (rest / 100, rest / 10 % 10, rest % 10);
    write!(into, "{whole}.{first}{second}{third}")
}

// The same of a number of 64 bits, which is divided faster.
#[tactic(auto, unfolding(crate::specs::Numbers::thousandths))]
fn add_short(into: &mut String, number: u64) -> Result<(), AllocError>
    ensures { OnOk result (string_bytes into.new ≡ string_bytes into.old ++ spec.thousandths number) }
{
    let whole = number / 1000;
    let first = number / 100 % 10;
    let second = number / 10 % 10;
    let third = number % 10;
    write!(into, "{whole}.{first}{second}{third}")
}

// Puts so many thousandths behind a text.
fn add_thousandths(into: &mut String, number: u128) -> Result<(), AllocError>
    ensures { OnOk result (string_bytes into.new ≡ string_bytes into.old ++ spec.thousandths number) }
{
    if number > u64::MAX as u128 {
        return add_long(into, number);
    }
    add_short(into, number as u64)
}

/// Puts a time in picoseconds behind a text, as microseconds.
pub(crate) fn add_time(into: &mut String, time: Option<u64>) -> Result<(), AllocError>
    ensures { OnOk result (string_bytes into.new ≡ string_bytes into.old ++ spec.or_none spec.microseconds time) }
{
    match time {
        Some(time) => add_thousandths(into, (time as u128 + 999) / 1000),
        None => into.push_str("none"),
    }
}

/// Puts a load in thousandths behind a text.
pub(crate) fn add_load(into: &mut String, load: Option<u128>) -> Result<(), AllocError>
    ensures { OnOk result (string_bytes into.new ≡ string_bytes into.old ++ spec.or_none spec.thousandths load) }
{
    match load {
        Some(load) => add_thousandths(into, load),
        None => into.push_str("none"),
    }
}

/// Puts a count of bits behind a text.
pub(crate) fn add_count(into: &mut String, count: Option<u64>) -> Result<(), AllocError>
    ensures { OnOk result (string_bytes into.new ≡ string_bytes into.old ++ spec.or_none decimal count) }
{
    match count {
        Some(count) => write!(into, "{count}"),
        None => into.push_str("none"),
    }
}

// Puts a number of one digit behind a text.
fn add_digit(into: &mut String, digit: u128) -> Result<(), AllocError>
    ensures { OnOk result (string_bytes into.new ≡ string_bytes into.old ++ decimal digit) }
{
    write!(into, "{digit}")
}

// Puts a number of thousandths, of ten thousandths .. behind a text, with so many digits behind the point more than three.
#[tactic(auto, unfolding(crate::specs::Numbers::with_digits))]
fn add_digits(into: &mut String, more: u32, number: u128) -> Result<(), AllocError>
    ensures { OnOk result (string_bytes into.new ≡ string_bytes into.old ++ spec.with_digits more number) }
{
    if more == 0 {
        return add_thousandths(into, number);
    }
    add_digits(into, more - 1, number / 10)?;
    add_digit(into, number % 10)?;
    Ok(())
}

// So many times a power of ten.
fn shifted(number: u64, digits: u32) -> u128
    requires { (number < 10 ^ 18) × (digits ≤ 18) }
    ensures { result ≡ number * 10 ^ digits }
{
    number as u128 * 10u128.pow(digits)
}

// Whether so many digits behind the point more than three write a number whole.
fn is_written(number: Amount, more: u32) -> bool
    requires amount { IsAmount number }
    requires few { more ≤ 15 }
    ensures { result ≡ spec.is_written number more }
{
    shifted(number.top, 3 + more) % number.bottom as u128 == 0
}

// The least count of digits behind the point, more than three, that write a number whole.
fn more_digits(number: Amount) -> Option<u32>
    requires { IsAmount number }
    ensures value { result ≡ spec.more_digits number }
    ensures few { IfSome result (λ more. more ≤ 15) }
{
    for more in 0..16 {
        if is_written(number, more) {
            return Some(more);
        }
    }
    None
}

// Puts a number behind a text as a fraction in lowest terms.
fn add_fraction(into: &mut String, number: Amount) -> Result<(), AllocError>
    requires { IsAmount number }
    ensures { OnOk result (string_bytes into.new ≡ string_bytes into.old ++ spec.as_fraction number) }
{
    let common = gcd_of(number.top as u128, number.bottom as u128);
    let top = number.top as u128 / common;
    let bottom = number.bottom as u128 / common;
    write!(into, "{top}/{bottom}")
}

/// Puts a number behind a text, never rounded: with three digits behind the point or as many more as it takes, up to 18, and
/// else as a fraction in lowest terms.
pub(crate) fn add_exact(into: &mut String, number: Amount) -> Result<(), AllocError>
    requires { IsAmount number }
    ensures { OnOk result (string_bytes into.new ≡ string_bytes into.old ++ spec.exact number) }
{
    match more_digits(number) {
        Some(more) => add_digits(
            into,
            more,
            shifted(number.top, 3 + more) / number.bottom as u128,
        ),
        None => add_fraction(into, number),
    }
}

/// A time in picoseconds, as microseconds.
pub(crate) fn time_text(alloc: Global, time: Option<u64>) -> Result<String, AllocError>
    ensures { IfOk result (λ text. string_bytes text ≡ spec.or_none spec.microseconds time) }
{
    let mut text = String::new(alloc);
    add_time(&mut text, time)?;
    Ok(text)
}

/// A load in thousandths.
pub(crate) fn load_text(alloc: Global, load: Option<u128>) -> Result<String, AllocError>
    ensures { IfOk result (λ text. string_bytes text ≡ spec.or_none spec.thousandths load) }
{
    let mut text = String::new(alloc);
    add_load(&mut text, load)?;
    Ok(text)
}

/// A count of bits.
pub(crate) fn count_text(alloc: Global, count: Option<u64>) -> Result<String, AllocError>
    ensures { IfOk result (λ text. string_bytes text ≡ spec.or_none decimal count) }
{
    let mut text = String::new(alloc);
    add_count(&mut text, count)?;
    Ok(text)
}

/// A number, never rounded, as `add_exact` writes it.
pub(crate) fn exact_text(alloc: Global, number: Amount) -> Result<String, AllocError>
    requires { IsAmount number }
    ensures { IfOk result (λ text. string_bytes text ≡ spec.exact number) }
{
    let mut text = String::new(alloc);
    add_exact(&mut text, number)?;
    Ok(text)
}

/// Whether a bound in picoseconds is at most a deadline in microseconds; where there is no bound it is not.
pub fn is_met(bound: Option<u64>, deadline: Amount) -> bool
    ensures { result ≡ spec.is_met bound deadline }
{
    match bound {
        Some(bound) => {
            bound as u128 * deadline.bottom as u128 <= deadline.top as u128 * 1_000_000
        }
        None => false,
    }
}
