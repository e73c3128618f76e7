//! Names by their numbers.

ghost use Rattle.std.specs.Prelude.{◌≡◌, ◌++◌, ◌∷◌, ◌<◌, [], not, map, option_map, slice_get, IfSome, IfOk, OnOk, None, Some, true, length};
ghost use Rattle.std.specs.List.{list_any, position};
ghost use Rattle.std.specs.Str.{bytes_eq};
ghost use Rattle.std.specs.String.{string_bytes};
ghost use Rattle.document_tables.specs.Names.{AreNumbersOf, AreOwn};

use std::alloc::{AllocError, Global};
use std::collections::BTreeMap;
use std::marker::Model;

// How many slots there are.
const SLOTS: u64 = 8_192;

// How many of the names of a slot are looked at, the newest first.
const MOST_IN_SLOT: usize = 4;

/// Names by their numbers, in the order in which they came: contracts see the list of their texts. Each is found among
/// the others in their order, so that no choice of names makes it slow; most are found before at one of the last numbers
/// that their slot had. These have 2 bytes each, so that they stay near. The many short texts are let go last: behind them, a large list that goes would have the
/// allocator join them all.
#[derive(Drop)]
pub struct Names {
    slots: Vec<u16>,
    earlier: Vec<u16>,
    texts: Vec<String>,
    numbers: BTreeMap<String, usize>,
}

impl Model for Names {
    ghost use Rattle.std.specs.Prelude.{ℕ, List, map};
    ghost use Rattle.std.specs.String.{string_bytes};
    ghost use Rattle.document_tables.specs.Names.{AreNumbersOf};

    ghost Value = { List (List ℕ) };

    ghost view = { λ n. map string_bytes n.texts.items };

    ghost invariant = { λ n. AreNumbersOf n.numbers (map string_bytes n.texts.items) };
}

impl Names {
    /// No name.
    pub fn new(alloc: Global) -> Names
        ensures { result ≡ [] }
    {
        Names {
            slots: Vec::new(alloc),
            earlier: Vec::new(alloc),
            texts: Vec::new(alloc),
            numbers: BTreeMap::new(alloc),
        }
    }

    /// How many there are.
    pub fn len(&self) -> usize
        ensures { result ≡ length self.now }
    {
        self.texts.len()
    }

    /// The name of a number; none past the last one.
    pub fn get(&self, number: usize) -> Option<&str>
        ensures { option_map (λ name. name.now) result ≡ slice_get self.now number }
    {
        match self.texts.get(number) {
            Some(text) => Some(text.as_str()),
            None => None,
        }
    }

    // No two names are one, as the numbers show.
    fn are_own(&self)
        ensures { AreOwn self.now }
    {
        let _count = self.texts.len();
    }
}

// The number of a name.
fn number_of(names: &Names, name: &str) -> Option<usize>
    ensures value { result ≡ position (bytes_eq name.now) names.now }
    ensures within { IfSome result (λ n. n < length names.now) }
{
    names.numbers.get(name).copied()
}

// Whether a name has this number.
fn is_named(names: &Names, number: usize, name: &str) -> bool
    ensures { result ≡ true → slice_get names.now number ≡ Some name.now }
{
    match names.get(number) {
        Some(text) => text == name,
        None => false,
    }
}

// The slot of a name.
fn slot_of(name: &str) -> usize {
    let mut sum: u64 = 0;
    for byte in name.as_bytes() {
        sum = sum.wrapping_mul(31).wrapping_add(*byte as u64);
    }
    (sum % SLOTS) as usize
}

// The number of the name that took the slot of this one last.
fn number_in_slot(names: &Names, name: &str) -> usize {
    match names.slots.get(slot_of(name)) {
        Some(number) => *number as usize,
        None => 0,
    }
}

// The number that the slot of a name had before this one.
fn number_before(names: &Names, number: usize) -> usize {
    match names.earlier.get(number) {
        Some(number) => *number as usize,
        None => 0,
    }
}

// Puts a number into the slot of its name, and the one that it had behind those of the other slots.
fn take_slot(
    alloc: Global,
    slots: &mut Vec<u16>,
    earlier: &mut Vec<u16>,
    name: &str,
    number: usize,
) -> Result<(), AllocError> {
    if slots.is_empty() {
        *slots = vec![in alloc; 0u16; SLOTS as usize]?;
    }
    let slot = slot_of(name);
    if slot < slots.len() && number <= u16::MAX as usize {
        earlier.push(slots[slot])?;
        slots[slot] = number as u16;
    }
    Ok(())
}

// The number of a name, where it is this one, or one of the last that its slot had.
fn near_number(names: &Names, name: &str, near: usize) -> Option<usize>
    ensures { IfSome result (λ n. slice_get names.now n ≡ Some name.now) }
{
    if is_named(names, near, name) {
        return Some(near);
    }
    let mut number = number_in_slot(names, name);
    for _turn in 0..MOST_IN_SLOT {
        if is_named(names, number, name) {
            return Some(number);
        }
        number = number_before(names, number);
    }
    None
}

/// The number of a name. It is found at once where it is this one.
pub(crate) fn number_near(names: &Names, name: &str, near: usize) -> Option<usize>
    ensures value { result ≡ position (bytes_eq name.now) names.now }
    ensures within { IfSome result (λ n. n < length names.now) }
{
    names.are_own();
    match near_number(names, name, near) {
        Some(number) => Some(number),
        None => number_of(names, name),
    }
}

// Puts a text that is new behind others, under the next number.
fn push_text(
    alloc: Global,
    texts: &mut Vec<String>,
    numbers: &mut BTreeMap<String, usize>,
    name: &str,
) -> Result<(), AllocError>
    requires numbered { AreNumbersOf numbers.old (map string_bytes texts.old.items) }
    requires new { position (bytes_eq name.now) (map string_bytes texts.old.items) ≡ None }
    ensures numbered { AreNumbersOf numbers.new (map string_bytes texts.new.items) }
    ensures grown { OnOk result (map string_bytes texts.new.items
        ≡ map string_bytes texts.old.items ++ name.now ∷ []) }
{
    let number = texts.len();
    texts.reserve(1)?;
    let text = String::from_str(alloc, name)?;
    numbers.insert(String::from_str(alloc, name)?, number)?;
    texts.push_reserved(text);
    Ok(())
}

/// Puts a name that is new behind others.
pub(crate) fn push_name(alloc: Global, names: &mut Names, name: &str) -> Result<(), AllocError>
    requires { position (bytes_eq name.now) names.old ≡ None }
    ensures { OnOk result (names.new ≡ names.old ++ name.now ∷ []) }
{
    let number = names.texts.len();
    push_text(alloc, &mut names.texts, &mut names.numbers, name)?;
    take_slot(alloc, &mut names.slots, &mut names.earlier, name, number)?;
    Ok(())
}

/// Puts a name behind others, and says whether it is new.
pub(crate) fn add_name(alloc: Global, names: &mut Names, name: &str) -> Result<bool, AllocError>
    ensures new { IfOk result (λ is_new. is_new ≡ not (list_any (bytes_eq name.now) names.old)) }
    ensures grown { IfOk result (λ is_new. is_new ≡ true → names.new ≡ names.old ++ name.now ∷ []) }
{
    if number_of(names, name).is_some() {
        return Ok(false);
    }
    push_name(alloc, names, name)?;
    Ok(true)
}
