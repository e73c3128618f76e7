//! A sink in memory, which fails at the calls that it is told.
ghost use Rattle.std.specs.Prelude.{◌≡◌, ◌≤◌, ◌+◌, ◌↔◌, ◌||◌, nat_lt, IsTrue, [], ◌∷◌, Some, length, IfOk, OnOk, OnErr, IsErr, ◌++◌, vec_capacity};
ghost use Rattle.std.specs.Io.KnownBytes.{Appends};
ghost use Rattle.outside.specs.Faults.{Rose, fails_at, counted_up};
ghost use Rattle.outside.specs.Written.{AppendsFront};
ghost use Rattle.outside.specs.MemoryBytes.{MemoryBytes, room, put_fails, after_put};

use crate::NoMemory;
use crate::failing::fails_at;
use crate::noted::Noted;
use crate::sink::{PutFault, Sink};
use std::marker::Model;

/// The bytes that a `MemSink` has room for. It reserves them when it is made.
pub const SINK_BYTES: usize = 4_194_304;

/// What was written, in memory.
#[derive(Drop)]
pub struct MemSink {
    bytes: Vec<u8>,
    fail: Vec<u32>,
    calls: u64,
    faults: u64,
    puts: Noted,
}

impl Model for MemSink {
    ghost Value = { MemoryBytes };

    ghost view = { λ s. record {
      bytes = s.bytes.items;
      fail = s.fail.items;
      calls = s.calls;
      faults = s.faults;
      puts = s.puts.all;
    } };

    ghost invariant = { λ s. room ≤ vec_capacity s.bytes };
}

/// Whether so many bytes more than there are would pass the room.
fn is_past(count: usize, more: usize) -> bool
    ensures { result ≡ nat_lt room (count + more) }
{
    count > SINK_BYTES || more > SINK_BYTES - count
}

impl MemSink {
    /// An empty sink. `fail` has the numbers of the calls of `put` that fail, from 0; its allocator
    /// gives the room.
    pub fn new(fail: Vec<u32>) -> Result<MemSink, NoMemory>
        ensures { IfOk result (λ sink. sink ≡ record { bytes = []; fail = fail.items; calls = 0; faults = 0; puts = [] }) }
    {
        let bytes = Vec::with_capacity(*fail.allocator(), SINK_BYTES)?;
        Ok(MemSink {
            bytes,
            fail,
            calls: 0,
            faults: 0,
            puts: Noted::new(),
        })
    }

    /// The bytes that were put.
    pub fn bytes(&self) -> &[u8]
        ensures { result.now ≡ self.now.bytes }
    {
        self.bytes.as_slice()
    }
}

impl Sink for MemSink {
    ghost written = { λ s. Some s.bytes };

    ghost faults = { λ s. s.faults };

    ghost puts = { λ s. s.puts };

    fn put(&mut self, bytes: &[u8]) -> Result<(), PutFault>
        ensures ok { OnOk result (self.new.bytes ≡ self.old.bytes ++ bytes.now) }
        ensures failed { OnErr result (Rose self.old.faults self.new.faults) }
        ensures front { OnErr result (AppendsFront (Some self.old.bytes) (Some self.new.bytes) bytes.now) }
        ensures count { self.old.faults ≤ self.new.faults }
        ensures puts { self.new.puts ≡ self.old.puts ++ bytes.now ∷ [] }

        // It fails at the calls that it was told, and where the bytes would pass its room, and nowhere else.
        ensures told { IsErr result ↔ IsTrue (put_fails self.old (length bytes.now)) }

        ensures state { self.new ≡ after_put self.old bytes.now }
    {
        self.puts.note(bytes);
        let call = self.calls;
        self.calls = call.saturating_add(1);
        if fails_at(&self.fail, call) || is_past(self.bytes.len(), bytes.len()) {
            self.faults = self.faults.saturating_add(1);
            return Err(PutFault::Failed);
        }
        self.bytes.extend_from_slice(bytes).unwrap();
        Ok(())
    }
}
