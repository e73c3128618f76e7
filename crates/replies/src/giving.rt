//! The end of a call: its answer is given.

ghost use Rattle.std.specs.Prelude.{◌≡◌, ◌≢◌, ◌++◌, ◌∷◌, []};
ghost use Rattle.outside.specs.Written.{output};
ghost use Rattle.replies.specs.Given.{write_fault, Gives, FailsToGive};

use outside::Sink;

// The status of a call whose answer was not written, and of no other.
const WRITE_FAULT: u8 = 4;

/// Gives an answer, by one put of its text: returns its status where the text was written, and 4 where the sink failed.
pub fn give<K: Sink>(out: &mut K, status: u8, text: &[u8]) -> u8
    requires { status ≢ write_fault }
    ensures given { result ≢ write_fault
        → Gives result status text.now (output K.written K.puts out.old) (output K.written K.puts out.new) }
    ensures failed { result ≡ write_fault → FailsToGive K.faults K.written K.puts out.old out.new text.now }
    ensures put { K.puts out.new ≡ K.puts out.old ++ text.now ∷ [] }
{
    match out.put(text) {
        Ok(()) => status,
        Err(_) => WRITE_FAULT,
    }
}
