//! Where bytes go.
ghost use Rattle.std.specs.Prelude.{◌≡◌, ◌≤◌, ◌++◌, [], ◌∷◌, List, ℕ, Option, OnOk, OnErr};
ghost use Rattle.std.specs.Io.KnownBytes.{Appends};
ghost use Rattle.outside.specs.Faults.{Rose};
ghost use Rattle.outside.specs.Written.{AppendsFront};

/// Why bytes were not put.
#[derive(Clone, Copy, Debug, PartialEq, Eq)]
pub enum PutFault {
    /// The bytes, or some at their end, could not be written.
    Failed,
}

/// A place that takes bytes in order.
pub trait Sink {
    /// The bytes written so far, where they are told.
    ghost written: { Self → Option (List ℕ) };

    /// How many puts have failed. It never falls.
    ghost faults: { Self → ℕ };

    /// The bytes of each put, in order, whether it failed or not. Only proofs see it.
    ghost puts: { Self → List (List ℕ) };

    /// Appends all of the bytes, or fails after a front of them.
    fn put(&mut self, bytes: &[u8]) -> Result<(), PutFault>
        ensures ok { OnOk result (Appends (written self.old) (written self.new) bytes.now) }
        ensures failed { OnErr result (Rose (faults self.old) (faults self.new)) }
        ensures front { OnErr result (AppendsFront (written self.old) (written self.new) bytes.now) }
        ensures count { faults self.old ≤ faults self.new }
        ensures puts { puts self.new ≡ puts self.old ++ bytes.now ∷ [] };
}
