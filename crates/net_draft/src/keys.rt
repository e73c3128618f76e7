//! What stands at the keys of a table, with the faults' places.

ghost use Rattle.std.specs.Prelude.{◌≡◌, ◌≤◌, [], pos, codes, false, length, map, IfOk, option_map};
ghost use Rattle.std.specs.List.{list_any};
ghost use Rattle.std.specs.Str.{bytes_eq};
ghost use Rattle.rational.specs.Rational.{int, ◌≤ℚ◌, ◌<ℚ◌};
ghost use Rattle.toml.specs.View.{view, table_view};
ghost use Rattle.toml.specs.Data.{get_member};
ghost use Rattle.net_model.specs.Accepted.{IsVersion};
ghost use Rattle.net_draft.specs.Faults.{Gives, placed};
ghost use Rattle.net_draft.specs.Values.{at_key, required, optional, truth_in, table_in};
ghost use Rattle.net_draft.specs.Values.{number_in, positive_in, nonnegative_in, whole_in, list_in};
ghost use Rattle.net_draft.specs.Keys.{only, texts_of};

use crate::fault::DraftFault;
use crate::places::{fault_at, fault_under};
use crate::values::{
    list_in, nonnegative_in, number_in, positive_in, table_in, truth_in, whole_in,
};
use fraction128::Frac;
use net_model::NetKind;
use std::alloc::Global;
use toml::{Table, Value};

/// The value at a key.
pub(crate) fn field<'a>(table: &'a Table, key: &str) -> Option<&'a Value>
    ensures { option_map (λ v. view v.now) result ≡ get_member key.now (table_view table.now) }
{
    table.get(key)
}

/// What is read of the value at a key, or the answer for a table that has none; a fault has the key's place.
macro_rules! value_at {
    ($alloc:expr, $table:expr, $place:expr, $key:expr, $absent:expr, |$value:ident| $read:expr) => {
        match field($table, $key) {
            None => $absent,
            Some($value) => match $read {
                Ok(read) => Ok(read),
                Err(kind) => Err(fault_under($alloc, kind, $place, $key)),
            },
        }
    };
}

/// The same at a key that has to be there.
macro_rules! required_at {
    ($alloc:expr, $table:expr, $place:expr, $key:expr, |$value:ident| $read:expr) => {
        value_at!(
            $alloc,
            $table,
            $place,
            $key,
            Err(fault_under($alloc, NetKind::M2, $place, $key)),
            |$value| $read
        )
    };
}

pub(crate) use required_at;
pub(crate) use value_at;

fn is_known(key: &str, known: &[&str]) -> bool
    ensures { result ≡ list_any (bytes_eq key.now) (texts_of known.now) }
{
    for word in known {
        if key == *word {
            return true;
        }
    }
    false
}

/// Nothing where all keys of a table are known, else a fault at the least that is not.
pub(crate) fn only(
    alloc: Global,
    table: &Table,
    place: &str,
    known: &[&str],
) -> Result<(), DraftFault>
    ensures { Gives (λ _. tt) result (only (texts_of known.now) place.now (table_view table.now)) }
{
    for (key, _value) in table.iter() {
        if !is_known(key.as_str(), known) {
            return Err(fault_under(alloc, NetKind::M3, place, key.as_str()));
        }
    }
    Ok(())
}

/// The table at a place.
pub(crate) fn table_at<'a>(
    alloc: Global,
    place: &str,
    value: &'a Value,
) -> Result<&'a Table, DraftFault>
    ensures { Gives (λ t. table_view t.now) result (placed place.now (table_in (view value.now))) }
{
    match table_in(value) {
        Ok(table) => Ok(table),
        Err(kind) => Err(fault_at(alloc, kind, place)),
    }
}

pub(crate) fn required_number(
    alloc: Global,
    table: &Table,
    place: &str,
    key: &str,
) -> Result<Frac, DraftFault>
    ensures { Gives (λ x. x) result (at_key key.now (required number_in) place.now (table_view table.now)) }
{
    required_at!(alloc, table, place, key, |value| number_in(value))
}

pub(crate) fn number_or(
    alloc: Global,
    table: &Table,
    place: &str,
    key: &str,
    default: Frac,
) -> Result<Frac, DraftFault>
    ensures { Gives (λ x. x) result (at_key key.now (optional number_in default) place.now (table_view table.now)) }
{
    value_at!(
        alloc,
        table,
        place,
        key,
        Ok(default),
        |value| number_in(value)
    )
}

pub(crate) fn positive_number(
    alloc: Global,
    table: &Table,
    place: &str,
    key: &str,
) -> Result<Frac, DraftFault>
    ensures value { Gives (λ x. x) result (at_key key.now (required positive_in) place.now (table_view table.now)) }
    ensures range { IfOk result (λ x. int (pos 0) <ℚ x) }
{
    required_at!(alloc, table, place, key, |value| positive_in(value))
}

/// A number that is not below 0; 0 where there is none.
pub(crate) fn nonnegative_number(
    alloc: Global,
    table: &Table,
    place: &str,
    key: &str,
) -> Result<Frac, DraftFault>
    ensures value { Gives (λ x. x) result
        (at_key key.now (optional nonnegative_in (int (pos 0))) place.now (table_view table.now)) }
    ensures range { IfOk result (λ x. int (pos 0) ≤ℚ x) }
{
    value_at!(
        alloc,
        table,
        place,
        key,
        Ok(Frac::zero()),
        |value| nonnegative_in(value)
    )
}

pub(crate) fn required_whole(
    alloc: Global,
    table: &Table,
    place: &str,
    key: &str,
    least: u32,
    most: u32,
) -> Result<u32, DraftFault>
    ensures value { Gives (λ n. n) result
        (at_key key.now (required (whole_in least most)) place.now (table_view table.now)) }
    ensures range { IfOk result (λ n. (least ≤ n) × (n ≤ most)) }
{
    required_at!(
        alloc,
        table,
        place,
        key,
        |value| whole_in(value, least, most)
    )
}

/// The version: 1 or 2, and 1 where there is none.
pub(crate) fn version(alloc: Global, table: &Table) -> Result<u32, DraftFault>
    ensures value { Gives (λ n. n) result
        (at_key (codes "version") (optional (whole_in 1 2) 1) [] (table_view table.now)) }
    ensures range { IfOk result IsVersion }
{
    value_at!(
        alloc,
        table,
        "",
        "version",
        Ok(1),
        |value| whole_in(value, 1, 2)
    )
}

/// A truth; false where there is none.
pub(crate) fn is_true(
    alloc: Global,
    table: &Table,
    place: &str,
    key: &str,
) -> Result<bool, DraftFault>
    ensures { Gives (λ b. b) result (at_key key.now (optional truth_in false) place.now (table_view table.now)) }
{
    value_at!(alloc, table, place, key, Ok(false), |value| truth_in(value))
}

pub(crate) fn required_list<'a>(
    alloc: Global,
    table: &'a Table,
    place: &str,
    key: &str,
    least: usize,
    most: usize,
) -> Result<&'a [Value], DraftFault>
    ensures value { Gives (λ vs. map view vs.now) result
        (at_key key.now (required (list_in least most)) place.now (table_view table.now)) }
    ensures range { IfOk result (λ vs. (least ≤ length vs.now) × (length vs.now ≤ most)) }
{
    required_at!(
        alloc,
        table,
        place,
        key,
        |value| list_in(value, least, most)
    )
}

/// The entries of an array at a key of the root; none where there is no such key.
pub(crate) fn list_or_none<'a>(
    alloc: Global,
    table: &'a Table,
    key: &str,
    most: usize,
) -> Result<&'a [Value], DraftFault>
    ensures value { Gives (λ vs. map view vs.now) result
        (at_key key.now (optional (list_in 0 most) []) [] (table_view table.now)) }
    ensures range { IfOk result (λ vs. length vs.now ≤ most) }
{
    value_at!(
        alloc,
        table,
        "",
        key,
        Ok(&[]),
        |value| list_in(value, 0, most)
    )
}
