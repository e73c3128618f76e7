//! Standard output. Nothing is told of what it holds.
ghost use Rattle.std.specs.Prelude.{◌≡◌, ◌≤◌, ◌++◌, [], ◌∷◌, None, true, false, IsOk, OnErr, IsTrue};
ghost use Rattle.std.specs.Io.KnownBytes.{Appends};
ghost use Rattle.outside.specs.Faults.{Rose, PutFaults, put_of, put_failed};
ghost use Rattle.outside.specs.Written.{AppendsFront};

use crate::noted::Noted;
use crate::sink::{PutFault, Sink};
use std::io;
use std::io::Write;
use std::marker::Model;

/// Standard output.
#[derive(Drop)]
pub struct StdSink<R> {
    rt: R,
    faults: u64,
    puts: Noted,
}

impl<R> Model for StdSink<R> {
    ghost Value = { PutFaults };

    ghost view = { λ s. record { count = s.faults; puts = s.puts.all } };
}

impl<R: Print + Clone + Drop> StdSink<R> {
    /// The standard output of this runtime.
    pub fn new(rt: R) -> StdSink<R>
        ensures { result ≡ record { count = 0; puts = [] } }
    {
        StdSink {
            rt,
            faults: 0,
            puts: Noted::new(),
        }
    }
}

/// Writes all of the bytes, and says whether that went well. A write that takes nothing is a fault.
fn write_whole<W: Write>(to: &mut W, bytes: &[u8]) -> bool
    ensures ok { IsTrue result → Appends (W.contents to.old) (W.contents to.new) bytes.now }
    ensures front { AppendsFront (W.contents to.old) (W.contents to.new) bytes.now }
{
    let mut rest = bytes;
    while !rest.is_empty() {
        match to.write(rest) {
            Ok(0) => return false,
            Ok(count) => rest = &rest[count..],
            Err(_) => return false,
        }
    }
    true
}

impl<R: Print + Clone + Drop> Sink for StdSink<R> {
    ghost written = { λ _. None };

    ghost faults = { λ s. s.count };

    ghost puts = { λ s. s.puts };

    fn put(&mut self, bytes: &[u8]) -> Result<(), PutFault>
        ensures failed { OnErr result (Rose self.old.count self.new.count) }
        ensures count { self.old.count ≤ self.new.count }
        ensures puts { self.new.puts ≡ self.old.puts ++ bytes.now ∷ [] }
        ensures state { OnErr result (self.new ≡ put_failed (put_of self.old bytes.now)) }
        ensures stays { IsOk result → self.new ≡ put_of self.old bytes.now }
    {
        self.puts.note(bytes);
        if write_whole(&mut io::writer(&self.rt), bytes) {
            return Ok(());
        }
        self.faults = self.faults.saturating_add(1);
        Err(PutFault::Failed)
    }
}
