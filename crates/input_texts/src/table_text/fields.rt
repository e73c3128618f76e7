//! What fields are read as.

ghost use Rattle.std.specs.Prelude.{◌≡◌, ◌≤◌, IfSome};
ghost use Rattle.std.specs.Str.Parse.{starts_with_minus};
ghost use Rattle.rational.specs.Rational.{◌≤ℚ◌};
ghost use Rattle.fraction128.specs.Text.{unsigned_text, signed_value};
ghost use Rattle.min_plus.specs.Functions.{zero_q};
ghost use Rattle.net_model.specs.Accepted.{IsLength};
ghost use Rattle.input_texts.specs.table_text.Fields as spec;

use fraction128::{Frac, is_less, read_digits};

const MOST_BITS: i64 = 16_777_216;

/// A number.
pub fn number_in(text: &str) -> Option<Frac>
    ensures { result ≡ spec.number_in text.now }
{
    match Frac::parse(text.as_bytes()) {
        Ok(number) => Some(number),
        Err(_) => None,
    }
}

/// A number from 0 on.
pub fn time_in(text: &str) -> Option<Frac>
    ensures value { result ≡ spec.time_in text.now }
    ensures range { IfSome result (λ x. zero_q ≤ℚ x) }
{
    let number = number_in(text)?;
    if is_less(number, Frac::zero()) {
        None
    } else {
        Some(number)
    }
}

// Whether a minus sign stands first, and the bytes after it.
fn split_sign(text: &[u8]) -> (bool, &[u8])
    ensures minus { result.0 ≡ starts_with_minus text.now }
    ensures digits { result.1.now ≡ unsigned_text text.now }
{
    match text.split_first() {
        Some((b'-', rest)) => (true, rest),
        _ => (false, text),
    }
}

fn in_64_bits(minus: bool, size: u128) -> Option<i64>
    ensures { result ≡ spec.in_64_bits (signed_value minus size) }
{
    if size > 1 << 63 {
        return None;
    }
    if minus {
        return Some((-(size as i128)) as i64);
    }
    if size == 1 << 63 {
        return None;
    }
    Some(size as i64)
}

/// A whole number of 64 bits.
pub fn whole_in(text: &str) -> Option<i64>
    ensures { result ≡ spec.whole_in text.now }
{
    let (minus, digits) = split_sign(text.as_bytes());
    let size = read_digits(digits)?;
    in_64_bits(minus, size)
}

/// The bits of a packet: 1 to 2^24.
pub fn bits_in(text: &str) -> Option<u32>
    ensures value { result ≡ spec.bits_in text.now }
    ensures range { IfSome result IsLength }
{
    let bits = whole_in(text)?;
    if 1 <= bits && bits <= MOST_BITS {
        Some(bits as u32)
    } else {
        None
    }
}
