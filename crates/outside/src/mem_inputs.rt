//! Files in memory, which fail at the calls that they are told.
ghost use Rattle.std.specs.Prelude.{◌≡◌, ◌≤◌, ◌<◌, ◌==◌, ◌↔◌, ◌||◌, ◌++◌, ◌∷◌, false, IsTrue, is_none, [], List, ℕ, Option, None, Some, option_map, length, IfSome, OnOk, OnErr, IsErrOf};
ghost use Rattle.outside.specs.Faults.{Rose, fails_at, counted_up};
ghost use Rattle.outside.specs.MemoryFiles.{MemoryFiles, held, files_of, fetch_fails, called, had_too, failed, after_fetch};

use crate::failing::fails_at;
use crate::inputs::{FetchFault, Inputs};
use crate::noted::Noted;
use std::marker::Model;

/// Files by their names, in memory.
#[derive(Drop)]
pub struct MemInputs {
    files: Vec<(String, Vec<u8>)>,
    fail: Vec<u32>,
    calls: u64,
    faults: u64,
    failed: Noted,
    asked: Noted,
    had: Noted,
}

impl Model for MemInputs {
    ghost Value = { MemoryFiles };

    ghost view = { λ s. record {
      files = files_of s.files.items;
      fail = s.fail.items;
      calls = s.calls;
      faults = s.faults;
      last_fault = s.failed.last;
      asked = s.asked.all;
      had = s.had.all;
    } };
}

/// What the first file of this name holds.
fn find_file<'a>(files: &'a [(String, Vec<u8>)], name: &str) -> Option<&'a [u8]>
    ensures { option_map (λ bytes. bytes.now) result ≡ held (files_of files.now) name.now }
{
    for file in files {
        if file.0.as_str() == name {
            return Some(file.1.as_slice());
        }
    }
    None
}

impl MemInputs {
    /// Files of these names. Of two with one name the first counts. `fail` has the numbers of the
    /// calls of `fetch` that fail, from 0.
    pub fn new(files: Vec<(String, Vec<u8>)>, fail: Vec<u32>) -> MemInputs
        ensures { result
            ≡ record { files = files_of files.items; fail = fail.items; calls = 0; faults = 0; last_fault = []; asked = []; had = [] } }
    {
        MemInputs {
            files,
            fail,
            calls: 0,
            faults: 0,
            failed: Noted::new(),
            asked: Noted::new(),
            had: Noted::new(),
        }
    }

    /// Counts a call for this name, and says whether it is one that fails.
    fn next_call_fails(&mut self, name: &str) -> bool
        ensures answer { result ≡ fails_at self.old.fail self.old.calls }
        ensures state { self.new ≡ called self.old name.now }
    {
        self.asked.note(name.as_bytes());
        let call = self.calls;
        self.calls = call.saturating_add(1);
        fails_at(&self.fail, call)
    }

    /// Counts a fault at this name.
    fn refuse(&mut self, name: &str)
        ensures state { self.new ≡ failed self.old name.now }
        ensures count { self.old.faults ≤ self.new.faults }
    {
        self.faults = self.faults.saturating_add(1);
        self.failed.note(name.as_bytes());
    }

    /// What the first file of this name holds.
    fn file(&self, name: &str) -> Option<&[u8]>
        ensures { option_map (λ bytes. bytes.now) result ≡ held self.now.files name.now }
    {
        find_file(&self.files, name)
    }
}

/// Copies the bytes of a file, if they are not too many.
fn copy_file(bytes: &[u8], most: usize, into: &mut Vec<u8>) -> Result<(), FetchFault>
    requires { into.old.items ≡ [] }
    ensures ok { OnOk result (into.new.items ≡ bytes.now) }
    ensures fits { OnOk result (length bytes.now ≤ most) }
    ensures too_long { IsErrOf result FetchFault.TooLong ↔ (most < length bytes.now) }
    ensures failed { IsErrOf result FetchFault.Failed → ⊥ }
    ensures err { OnErr result (into.new.items ≡ []) }
{
    if bytes.len() > most {
        return Err(FetchFault::TooLong);
    }
    match into.extend_from_slice(bytes) {
        Ok(()) => Ok(()),
        Err(_) => Err(FetchFault::NoMemory),
    }
}

impl Inputs for MemInputs {
    ghost content = { λ s name. held s.files name };

    ghost faults = { λ s. s.faults };

    ghost last_fault = { λ s. s.last_fault };

    ghost asked = { λ s. s.asked };

    ghost had = { λ s. s.had };

    fn fetch(&mut self, name: &str, most: usize, into: &mut Vec<u8>) -> Result<(), FetchFault>
        ensures bytes { OnOk result (IfSome (held self.old.files name.now) (λ bytes. into.new.items ≡ bytes)) }
        ensures fits { OnOk result (length into.new.items ≤ most) }
        ensures too_long { IsErrOf result FetchFault.TooLong
            → IfSome (held self.old.files name.now) (λ bytes. most < length bytes) }
        ensures failed { IsErrOf result FetchFault.Failed → Rose self.old.faults self.new.faults }
        ensures failed_name { IsErrOf result FetchFault.Failed → self.new.last_fault ≡ name.now }
        ensures count { self.old.faults ≤ self.new.faults }
        ensures asked { self.new.asked ≡ self.old.asked ++ name.now ∷ [] }
        ensures had { OnOk result (self.new.had ≡ self.old.had ++ name.now ∷ []) }
        ensures not_had { OnErr result (self.new.had ≡ self.old.had) }
        ensures same { (other : List ℕ) → held self.new.files other ≡ held self.old.files other }
        ensures err { OnErr result (into.new.items ≡ []) }

        // It fails at the calls that it was told, and at a name that it lacks, and nowhere else.
        ensures told { IsErrOf result FetchFault.Failed ↔ IsTrue (fetch_fails self.old name.now) }

        // Where it does not fail, a file with too many bytes is too long, and no other.
        ensures long { fetch_fails self.old name.now ≡ false
            → IfSome (held self.old.files name.now)
            (λ bytes. IsErrOf result FetchFault.TooLong ↔ (most < length bytes)) }

        ensures state { OnErr result (self.new ≡ after_fetch self.old name.now) }
        ensures ok { OnOk result (self.new ≡ had_too (after_fetch self.old name.now) name.now) }
    {
        into.clear();
        if self.next_call_fails(name) {
            self.refuse(name);
            return Err(FetchFault::Failed);
        }
        match self.file(name) {
            Some(bytes) => {
                copy_file(bytes, most, into)?;
                self.had.note(name.as_bytes());
                Ok(())
            }
            None => {
                self.refuse(name);
                Err(FetchFault::Failed)
            }
        }
    }
}
