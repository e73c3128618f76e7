//! Paths of an edit list.

ghost use Rattle.std.specs.Prelude.{◌≡◌, ◌≢◌, ◌-◌, ◌^◌, ◌<◌, ◌≤◌, ℕ, min, map, length, true, slice_index, EachIndex};
ghost use Rattle.input_texts.specs.table_text.EditRows.{Finds};
ghost use Rattle.input_texts.specs.table_text.Paths as spec;

use crate::table_text::fault::TableKind;
use fraction128::read_digits;
use net_model::{PathEntry, are_name_bytes, find_colon};
use std::alloc::Global;

fn is_name(text: &[u8]) -> bool
    ensures { result ≡ spec.is_name text.now }
{
    are_name_bytes(text) && 1 <= text.len() && text.len() <= 32
}

fn name_text(name: &[u8]) -> &str
    requires { spec.is_name name.now ≡ true }
    ensures { result.now ≡ name.now }
{
    match str::from_utf8(name) {
        Ok(text) => text,
        Err(_) => unreachable!(),
    }
}

fn queue_number(n: u128) -> u32
    ensures { result ≡ min n (2 ^ 32 - 1) }
{
    n.min(u32::MAX as u128) as u32
}

fn entry_of(alloc: Global, name: &[u8], digits: &[u8]) -> Result<PathEntry, TableKind>
    ensures { Finds spec.entry_view result (spec.entry_of name.now digits.now) }
{
    if !is_name(name) {
        return Err(TableKind::T4);
    }
    let Some(number) = read_digits(digits) else {
        return Err(TableKind::T4);
    };
    let server = String::from_str(alloc, name_text(name))?;
    Ok(PathEntry {
        server,
        queue: queue_number(number),
    })
}

fn entry_in(alloc: Global, word: &[u8]) -> Result<PathEntry, TableKind>
    ensures { Finds spec.entry_view result (spec.entry_in word.now) }
{
    match find_colon(word) {
        Some(at) => entry_of(alloc, &word[..at], &word[at + 1..]),
        None => entry_of(alloc, word, b"0"),
    }
}

// How many bytes stand before the first space, or all.
fn word_len(text: &[u8]) -> usize
    ensures within { result ≤ length text.now }
    ensures none { (k : ℕ) → k < result → slice_index text.now k ≢ 32 }
    ensures ends { result < length text.now → slice_index text.now result ≡ 32 }
{
    for (i, byte) in text.iter().enumerate() {
        if *byte == b' ' {
            return i;
        }
    }
    text.len()
}

/// The entries of a path.
pub(crate) fn path_in(alloc: Global, text: &[u8]) -> Result<Vec<PathEntry>, TableKind>
    ensures { Finds (λ v. map spec.entry_view v.items) result (spec.path_in text.now) }
{
    let mut entries = Vec::new(alloc);
    let mut start = 0;
    while start <= text.len() {
        let end = start + word_len(&text[start..]);
        match entry_in(alloc, &text[start..end]) {
            Ok(entry) => entries.push(entry)?,
            Err(kind) => return Err(kind),
        }
        start = end + 1;
    }
    Ok(entries)
}
