//! Fractions as text: `p`, or `p/q` with q above 1.

ghost use Rattle.std.specs.Prelude.{◌≡◌, ◌<◌, ◌-◌, ◌^◌, ◌++◌, OnOk, OnErr};
ghost use Rattle.std.specs.Prelude.{true, false, MatchOption};
ghost use Rattle.std.specs.Str.Parse.{digits_value, starts_with_minus};
ghost use Rattle.std.specs.List.{position};
ghost use Rattle.rational.specs.Gauge.{cap};
ghost use Rattle.fraction128.specs.Text.{text_over, is_numeral, is_slash, signed_value, top_text, bottom_text, parse_of};

use crate::fault::FracText;
use crate::fraction::{Frac, LARGEST};
use itoa::Buffer;
use std::alloc::AllocError;

/// Appends `num`, or `num/den` where den is not 1. After an error the vector is as it was.
pub(crate) fn print_parts(num: i128, den: u128, into: &mut Vec<u8>) -> Result<(), AllocError>
    requires { 0 < den }
    ensures ok { OnOk result (into.new.items ≡ into.old.items ++ text_over num (den - 1)) }
    ensures err { OnErr result (into.new.items ≡ into.old.items) }
{
    let (mut first, mut second) = (Buffer::new(), Buffer::new());
    let top = first.format(num).as_bytes();
    let bottom = second.format(den).as_bytes();
    into.reserve(top.len() + 1 + bottom.len())?;
    into.extend_from_slice(top)?;
    if den != 1 {
        into.push(b'/')?;
        into.extend_from_slice(bottom)?;
    }
    Ok(())
}

/// The fraction that a text writes.
pub(crate) fn parse_text(text: &[u8]) -> Result<Frac, FracText>
    ensures { result ≡ parse_of text.now }
{
    let (minus, top, bottom) = split_number(text);
    let (Some(size), Some(den)) = (read_digits(top), read_digits(bottom)) else {
        return Err(FracText::Form);
    };
    if size > LARGEST || den > LARGEST {
        return Err(FracText::Past);
    }
    if den == 0 {
        return Err(FracText::ZeroDen);
    }
    Ok(Frac::reduced(signed(minus, size), den))
}

fn signed(minus: bool, size: u128) -> i128
    requires { size < 2 ^ 127 }
    ensures { result ≡ signed_value minus size }
{
    if minus { -(size as i128) } else { size as i128 }
}

/// Whether a minus sign stands first, the bytes before the first slash, and those after it, or the digit 1.
fn split_number(text: &[u8]) -> (bool, &[u8], &[u8])
    ensures minus { result.0 ≡ starts_with_minus text.now }
    ensures top { result.1.now ≡ top_text text.now }
    ensures bottom { result.2.now ≡ bottom_text text.now }
{
    let (minus, bytes) = match text.split_first() {
        Some((b'-', rest)) => (true, rest),
        _ => (false, text),
    };
    match find_slash(bytes) {
        Some(at) => (minus, &bytes[..at], &bytes[at + 1..]),
        None => (minus, bytes, b"1"),
    }
}

fn find_slash(bytes: &[u8]) -> Option<usize>
    ensures { result ≡ position is_slash bytes.now }
{
    bytes.iter().position(|b| *b == b'/')
}

/// The number that digits write, or 2^128 - 1 where it is above that; `None` where something else than
/// digits is there, or nothing.
pub fn read_digits(digits: &[u8]) -> Option<u128>
    ensures { MatchOption result (is_numeral digits.now ≡ false)
        (λ n. (is_numeral digits.now ≡ true) × (n ≡ cap (digits_value 10 digits.now))) }
{
    if digits.is_empty() {
        return None;
    }
    let mut n: u128 = 0;
    for b in digits {
        if !b.is_ascii_digit() {
            return None;
        }
        n = n.saturating_mul(10).saturating_add((*b - b'0') as u128);
    }
    Some(n)
}
