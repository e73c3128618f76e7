//! Files by name.
ghost use Rattle.std.specs.Prelude.{◌≡◌, ◌≤◌, ◌<◌, ◌++◌, [], ◌∷◌, List, ℕ, Option, length, IfSome, OnOk, OnErr, IsErrOf};
ghost use Rattle.outside.specs.Faults.{Rose};

/// Why a file was not fetched.
#[derive(Clone, Copy, Debug, PartialEq, Eq)]
pub enum FetchFault {
    /// The file is missing, or could not be read.
    Failed,
    /// The file has more bytes than were asked for at most.
    TooLong,
    /// An allocation was refused.
    NoMemory,
}

/// A place that holds files by their names.
pub trait Inputs {
    /// What a name holds, where that is told.
    ghost content: { Self → List ℕ → Option (List ℕ) };

    /// How many fetches have failed. It never falls.
    ghost faults: { Self → ℕ };

    /// The name that was asked for when a fetch last failed. Only proofs see it.
    ghost last_fault: { Self → List ℕ };

    /// The names that were asked for, in order. Only proofs see it.
    ghost asked: { Self → List (List ℕ) };

    /// Those of them whose bytes were had, in order. Only proofs see it.
    ghost had: { Self → List (List ℕ) };

    /// Puts what the name holds, at most so many bytes, into `into`, in place of what is there. After a refusal `into` is
    /// empty.
    fn fetch(&mut self, name: &str, most: usize, into: &mut Vec<u8>) -> Result<(), FetchFault>
        ensures bytes { OnOk result (IfSome (content self.old name.now) (λ bytes. into.new.items ≡ bytes)) }
        ensures fits { OnOk result (length into.new.items ≤ most) }

        // With `bytes` and `fits`: a file is too long exactly where it has more bytes than it may.
        ensures too_long { IsErrOf result FetchFault.TooLong
            → IfSome (content self.old name.now) (λ bytes. most < length bytes) }

        ensures failed { IsErrOf result FetchFault.Failed → Rose (faults self.old) (faults self.new) }
        ensures failed_name { IsErrOf result FetchFault.Failed → last_fault self.new ≡ name.now }
        ensures count { faults self.old ≤ faults self.new }
        ensures asked { asked self.new ≡ asked self.old ++ name.now ∷ [] }
        ensures had { OnOk result (had self.new ≡ had self.old ++ name.now ∷ []) }
        ensures not_had { OnErr result (had self.new ≡ had self.old) }
        ensures same { (other : List ℕ) → content self.new other ≡ content self.old other }
        ensures err { OnErr result (into.new.items ≡ []) };
}
