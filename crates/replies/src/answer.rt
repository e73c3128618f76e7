//! Answers: a status, and the text that is written with it.

ghost use Rattle.std.specs.Prelude.{◌≡◌};
ghost use Rattle.replies.specs.View.{code_of};

/// How a call ends; no program ends in each of these ways.
#[derive(Clone, Copy)]
pub enum Status {
    /// What was asked for was written, and tells no breach.
    Done,
    /// A file is too long, or breaks a rule of its files.
    Malformed,
    /// The words are not taken.
    Usage,
    /// A file could not be read.
    ReadFault,
    /// The output could not be written.
    WriteFault,
    /// An allocation was refused.
    NoMemory,
    /// A curve of a file, a cell, a simulation, or a line of a script has too wide numbers.
    TooWide,
    /// A curve of a file, a cell, or a line of a script has too many pieces.
    TooMany,
    /// The flows or links of the network go round.
    Cycle,
    /// The report was written, and tells a breach: of a premise by a run, or of a deadline.
    Breach,
}

impl Status {
    /// The exit status of the program.
    pub fn code(self) -> u8
        ensures { result ≡ code_of self }
    {
        match self {
            Status::Done => 0,
            Status::Malformed => 1,
            Status::Usage => 2,
            Status::ReadFault => 3,
            Status::WriteFault => 4,
            Status::NoMemory => 5,
            Status::TooWide => 6,
            Status::TooMany => 7,
            Status::Cycle => 8,
            Status::Breach => 9,
        }
    }
}

/// A status and the text that is written with it.
#[derive(Drop)]
pub struct Answer {
    pub status: Status,
    pub text: Vec<u8>,
}
