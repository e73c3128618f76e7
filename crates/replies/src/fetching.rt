//! The files of a call, fetched in order.

ghost use Rattle.std.specs.Prelude.{◌≡◌, ◌≤◌, [], ◌∷◌, List, ℕ, length, IfOk, IfErr, OnOk, OnErr};
ghost use Rattle.outside.specs.Fetching.{AsksForAll, FetchesAll, FetchesUpTo};
ghost use Rattle.outside.specs.Files.{MayHold, MayHoldAll, AllFit};
ghost use Rattle.replies.specs.Ended.{EndsAt, EndsIn, asks_of};

use outside::{FetchFault, Inputs};
use std::alloc::Global;

/// Why files were not had, with the name of the one where that showed.
#[derive(Clone, Copy)]
pub enum Unread<'a> {
    /// The file is missing, or could not be read.
    Failed(&'a str),
    /// The file has more bytes than it may have.
    TooLong(&'a str),
    /// An allocation was refused.
    NoMemory,
}

/// The bytes of a file, at most so many, or why they were not had.
pub fn fetch_one<'a, I: Inputs>(
    alloc: Global,
    most: usize,
    file: &'a str,
    inputs: &mut I,
) -> Result<Vec<u8>, Unread<'a>>
    ensures held { IfOk result (λ bytes. MayHold (I.content inputs.old file.now) bytes.items) }
    ensures fits { IfOk result (λ bytes. length bytes.items ≤ most) }
    ensures ended { IfErr result (λ unread.
        EndsAt most I.faults I.last_fault (I.content inputs.old) inputs.old inputs.new unread file.now) }
    ensures asked { AsksForAll I.asked (file.now ∷ []) inputs.old inputs.new }
    ensures all { OnOk result (FetchesAll I.asked I.had (file.now ∷ []) inputs.old inputs.new) }
    ensures not_had { OnErr result (I.had inputs.new ≡ I.had inputs.old) }
    ensures count { I.faults inputs.old ≤ I.faults inputs.new }
    ensures same { (other : List ℕ) → I.content inputs.new other ≡ I.content inputs.old other }
{
    let mut bytes = Vec::new(alloc);
    match inputs.fetch(file, most, &mut bytes) {
        Ok(()) => Ok(bytes),
        Err(FetchFault::TooLong) => Err(Unread::TooLong(file)),
        Err(FetchFault::Failed) => Err(Unread::Failed(file)),
        Err(FetchFault::NoMemory) => Err(Unread::NoMemory),
    }
}

// The bytes of a file that is fetched after another one, with these.
fn fetch_after<'a, I: Inputs>(
    before: Vec<u8>,
    most: usize,
    file: &'a str,
    inputs: &mut I,
) -> Result<(Vec<u8>, Vec<u8>), Unread<'a>>
    ensures before { IfOk result (λ files. files.0 ≡ before) }
    ensures held { IfOk result (λ files. MayHold (I.content inputs.old file.now) files.1.items) }
    ensures fits { IfOk result (λ files. length files.1.items ≤ most) }
    ensures ended { IfErr result (λ unread.
        EndsAt most I.faults I.last_fault (I.content inputs.old) inputs.old inputs.new unread file.now) }
    ensures asked { AsksForAll I.asked (file.now ∷ []) inputs.old inputs.new }
    ensures all { OnOk result (FetchesAll I.asked I.had (file.now ∷ []) inputs.old inputs.new) }
    ensures not_had { OnErr result (I.had inputs.new ≡ I.had inputs.old) }
{
    match fetch_one(*before.allocator(), most, file, inputs) {
        Ok(bytes) => Ok((before, bytes)),
        Err(unread) => Err(unread),
    }
}

/// The bytes of two files, each at most so many, or why those of the first that was not fetched were not had.
pub fn fetch_two<'a, I: Inputs>(
    alloc: Global,
    most: usize,
    first: &'a str,
    second: &'a str,
    inputs: &mut I,
) -> Result<(Vec<u8>, Vec<u8>), Unread<'a>>
    ensures held { IfOk result (λ files. MayHoldAll (I.content inputs.old) (first.now ∷ second.now ∷ [])
        (files.0.items ∷ files.1.items ∷ [])) }
    ensures fit { IfOk result (λ files. AllFit most (files.0.items ∷ files.1.items ∷ [])) }
    ensures ended { IfErr result (λ unread. EndsIn most I.faults I.last_fault (I.content inputs.old)
        (asks_of I.asked inputs.old inputs.new) inputs.old inputs.new unread (first.now ∷ second.now ∷ [])) }
    ensures asked { FetchesUpTo I.asked I.had (first.now ∷ second.now ∷ []) inputs.old inputs.new }
    ensures all { OnOk result (FetchesAll I.asked I.had (first.now ∷ second.now ∷ []) inputs.old inputs.new) }
{
    match fetch_one(alloc, most, first, inputs) {
        Ok(bytes) => fetch_after(bytes, most, second, inputs),
        Err(unread) => Err(unread),
    }
}
