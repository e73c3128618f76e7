//! The sink over a printer that takes a few bytes at a time.

use outside::{PutFault, Sink, StdSink};
use std::cell::Cell;
use std::{fmt, io};

/// A printer that takes three bytes at a time, up to `room` in all, and then nothing.
#[derive(Clone, Copy)]
struct Narrow<'a> {
    taken: &'a Cell<usize>,
    room: usize,
}

/// What no sink asks of a printer.
fn unsupported() -> io::Result<()> {
    Err(io::Error::from(io::ErrorKind::Unsupported))
}

impl Print for Narrow<'_> {
    fn print<D: fmt::Display + Drop>(&self, _value: D) -> io::Result<()> {
        unsupported()
    }

    fn println<D: fmt::Display + Drop>(&self, _value: D) -> io::Result<()> {
        unsupported()
    }

    fn write_all(&self, _bytes: &[u8]) -> io::Result<()> {
        unsupported()
    }

    fn write_some(&self, bytes: &[u8]) -> io::Result<usize> {
        let taken = self.taken.get();
        let left = self.room.saturating_sub(taken);
        let count = bytes.len().min(3).min(left);
        self.taken.set(taken.saturating_add(count));
        Ok(count)
    }
}

#[test]
fn output_is_written_whole_or_fails(rt: HostRuntime) {
    for (room, answer) in [
        (100, Ok(())),
        (8, Ok(())),
        (7, Err(PutFault::Failed)),
        (0, Err(PutFault::Failed)),
    ] {
        let taken = Cell::new(0);
        let mut out = StdSink::new(Narrow {
            taken: &taken,
            room,
        });
        assert_eq!(rt; out.put(b"12345678"), answer, "room {room}");
        assert_eq!(rt; taken.get(), room.min(8), "room {room}");
    }
}
