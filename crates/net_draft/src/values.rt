//! Single values of a file, without their places.

ghost use Rattle.std.specs.Prelude.{◌≡◌, ◌<◌, ◌≤◌, length, map, IfOk, pos};
ghost use Rattle.rational.specs.Rational.{int, ◌≤ℚ◌, ◌<ℚ◌};
ghost use Rattle.toml.specs.View.{view, table_view};
ghost use Rattle.net_draft.specs.Faults.{viewed};
ghost use Rattle.net_draft.specs.Values.{text_in, truth_in, table_in, entries_in, number_in, positive_in};
ghost use Rattle.net_draft.specs.Values.{nonnegative_in, whole_in, list_in};

use fraction128::Frac;
use net_model::NetKind;
use std::cmp::Ordering;
use toml::{Table, Value};

pub(crate) fn text_in(value: &Value) -> Result<&str, NetKind>
    ensures { viewed (λ s. s.now) result ≡ text_in (view value.now) }
{
    match value.as_str() {
        Some(text) => Ok(text),
        None => Err(NetKind::M4),
    }
}

pub(crate) fn truth_in(value: &Value) -> Result<bool, NetKind>
    ensures { result ≡ truth_in (view value.now) }
{
    match value.as_bool() {
        Some(truth) => Ok(truth),
        None => Err(NetKind::M4),
    }
}

pub(crate) fn table_in(value: &Value) -> Result<&Table, NetKind>
    ensures { viewed (λ t. table_view t.now) result ≡ table_in (view value.now) }
{
    match value.as_table() {
        Some(table) => Ok(table),
        None => Err(NetKind::M4),
    }
}

fn entries_in(value: &Value) -> Result<&[Value], NetKind>
    ensures { viewed (λ vs. map view vs.now) result ≡ entries_in (view value.now) }
{
    match value.as_array() {
        Some(array) => Ok(array.as_slice()),
        None => Err(NetKind::M4),
    }
}

/// An array of so many entries.
pub(crate) fn list_in(value: &Value, least: usize, most: usize) -> Result<&[Value], NetKind>
    ensures value { viewed (λ vs. map view vs.now) result ≡ list_in least most (view value.now) }
    ensures range { IfOk result (λ vs. (least ≤ length vs.now) × (length vs.now ≤ most)) }
{
    let entries = entries_in(value)?;
    if entries.len() < least {
        return Err(NetKind::M6);
    }
    if most < entries.len() {
        return Err(NetKind::M11);
    }
    Ok(entries)
}

/// A number: an integer, or a text that writes one.
pub(crate) fn number_in(value: &Value) -> Result<Frac, NetKind>
    ensures { result ≡ number_in (view value.now) }
{
    if let Some(whole) = value.as_integer() {
        return Ok(Frac::from(whole));
    }
    let Some(text) = value.as_str() else {
        return Err(NetKind::M4);
    };
    match Frac::parse(text.as_bytes()) {
        Ok(number) => Ok(number),
        Err(_) => Err(NetKind::M5),
    }
}

/// A number above 0.
pub(crate) fn positive_in(value: &Value) -> Result<Frac, NetKind>
    ensures value { result ≡ positive_in (view value.now) }
    ensures range { IfOk result (λ x. int (pos 0) <ℚ x) }
{
    let number = number_in(value)?;
    match Frac::zero().cmp(&number) {
        Ordering::Less => Ok(number),
        _ => Err(NetKind::M6),
    }
}

/// A number that is not below 0.
pub(crate) fn nonnegative_in(value: &Value) -> Result<Frac, NetKind>
    ensures value { result ≡ nonnegative_in (view value.now) }
    ensures range { IfOk result (λ x. int (pos 0) ≤ℚ x) }
{
    let number = number_in(value)?;
    match number.cmp(&Frac::zero()) {
        Ordering::Less => Err(NetKind::M6),
        Ordering::Equal => Ok(number),
        Ordering::Greater => Ok(number),
    }
}

/// An integer from the least to the most.
pub(crate) fn whole_in(value: &Value, least: u32, most: u32) -> Result<u32, NetKind>
    ensures value { result ≡ whole_in least most (view value.now) }
    ensures range { IfOk result (λ n. (least ≤ n) × (n ≤ most)) }
{
    match value.as_integer() {
        Some(whole) if whole >= least as i64 && whole <= most as i64 => Ok(whole as u32),
        Some(_) => Err(NetKind::M6),
        None => Err(NetKind::M4),
    }
}
