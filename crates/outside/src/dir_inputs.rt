//! Real files. Nothing is told of what they hold.
ghost use Rattle.std.specs.Prelude.{◌≡◌, ◌≤◌, ◌<◌, ◌++◌, [], ◌∷◌, List, ℕ, None, length, IfSome, OnOk, OnErr, IsErrOf};
ghost use Rattle.outside.specs.Faults.{Rose, FetchFaults, asked_for, had_by, failed_at};

use crate::inputs::{FetchFault, Inputs};
use crate::noted::Noted;
use std::fs;
use std::io::Read;
use std::marker::Model;
use std::rt::Files;

/// The files of the machine, by their paths.
#[derive(Drop)]
pub struct DirInputs<R> {
    rt: R,
    faults: u64,
    failed: Noted,
    asked: Noted,
    had: Noted,
}

impl<R> Model for DirInputs<R> {
    ghost Value = { FetchFaults };

    ghost view = { λ s. record { count = s.faults; name = s.failed.last; asked = s.asked.all; had = s.had.all } };
}

impl<R: Files + Clone + Drop> DirInputs<R> {
    /// The files that this runtime reaches.
    pub fn new(rt: R) -> DirInputs<R>
        ensures { result ≡ record { count = 0; name = []; asked = []; had = [] } }
    {
        DirInputs {
            rt,
            faults: 0,
            failed: Noted::new(),
            asked: Noted::new(),
            had: Noted::new(),
        }
    }

    /// Counts a fault at this name.
    fn refuse(&mut self, name: &str)
        ensures state { self.new ≡ failed_at self.old name.now }
        ensures count { self.old.count ≤ self.new.count }
    {
        self.faults = self.faults.saturating_add(1);
        self.failed.note(name.as_bytes());
    }

    /// Opens a file and reads it. One by a name with U+FFFD is not opened: that stands in a word for what is no text, and
    /// the file that was meant has another name.
    fn read(&self, name: &str, most: usize, into: &mut Vec<u8>) -> Result<(), FetchFault>
        requires { into.old.items ≡ [] }
        ensures { OnOk result (length into.new.items ≤ most) }
    {
        if name.contains(char::REPLACEMENT_CHARACTER) {
            return Err(FetchFault::Failed);
        }
        match fs::open(&self.rt, name) {
            Ok(mut file) => read_rest(&mut file, most, into),
            Err(_) => Err(FetchFault::Failed),
        }
    }
}

/// Reads up to the end, which is a read that gives no byte, or to one byte more than a file may have.
fn read_rest<F: Read>(file: &mut F, most: usize, into: &mut Vec<u8>) -> Result<(), FetchFault>
    requires { into.old.items ≡ [] }
    ensures fits { OnOk result (length into.new.items ≤ most) }
    ensures whole { OnOk result (IfSome (F.remaining file.old) (λ bytes. into.new.items ≡ bytes)) }
    ensures too_long { IsErrOf result FetchFault.TooLong
        → IfSome (F.remaining file.old) (λ bytes. most < length bytes) }
{
    let mut piece = [0u8; 4096];
    for _ in 0..most.saturating_add(1) {
        match file.read(&mut piece) {
            Ok(0) => return Ok(()),
            Ok(count) => add_piece(&piece[..count], most, into)?,
            Err(_) => return Err(FetchFault::Failed),
        }
    }
    Err(FetchFault::TooLong)
}

/// Appends a piece of a file, if it still has no more bytes than it may.
fn add_piece(piece: &[u8], most: usize, into: &mut Vec<u8>) -> Result<(), FetchFault>
    ensures ok { OnOk result (into.new.items ≡ into.old.items ++ piece.now) }
    ensures fits { OnOk result (length into.new.items ≤ most) }
    ensures too_long { IsErrOf result FetchFault.TooLong → most < length (into.old.items ++ piece.now) }
    ensures failed { IsErrOf result FetchFault.Failed → ⊥ }
{
    if into.extend_from_slice(piece).is_err() {
        return Err(FetchFault::NoMemory);
    }
    if into.len() > most {
        return Err(FetchFault::TooLong);
    }
    Ok(())
}

impl<R: Files + Clone + Drop> Inputs for DirInputs<R> {
    ghost content = { λ _ _. None };

    ghost faults = { λ s. s.count };

    ghost last_fault = { λ s. s.name };

    ghost asked = { λ s. s.asked };

    ghost had = { λ s. s.had };

    fn fetch(&mut self, name: &str, most: usize, into: &mut Vec<u8>) -> Result<(), FetchFault>
        ensures fits { OnOk result (length into.new.items ≤ most) }
        ensures failed { IsErrOf result FetchFault.Failed → Rose self.old.count self.new.count }
        ensures failed_name { IsErrOf result FetchFault.Failed → self.new.name ≡ name.now }
        ensures count { self.old.count ≤ self.new.count }
        ensures asked { self.new.asked ≡ self.old.asked ++ name.now ∷ [] }
        ensures had { OnOk result (self.new.had ≡ self.old.had ++ name.now ∷ []) }
        ensures not_had { OnErr result (self.new.had ≡ self.old.had) }
        ensures err { OnErr result (into.new.items ≡ []) }
        ensures state { IsErrOf result FetchFault.Failed → self.new ≡ failed_at (asked_for self.old name.now) name.now }
        ensures ok { OnOk result (self.new ≡ had_by (asked_for self.old name.now) name.now) }
        ensures stays { OnErr result (¬ IsErrOf result FetchFault.Failed → self.new ≡ asked_for self.old name.now) }
    {
        into.clear();
        self.asked.note(name.as_bytes());
        let answer = self.read(name, most, into);
        match answer {
            Ok(()) => self.had.note(name.as_bytes()),
            Err(fault) => {
                into.clear();
                if matches!(fault, FetchFault::Failed) {
                    self.refuse(name);
                }
            }
        }
        answer
    }
}
