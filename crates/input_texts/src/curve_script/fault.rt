//! Why a script has no answer.

ghost use Rattle.input_texts.specs.declared.curve_script.fault.LangKind.TheVariants.{NoMemory};
ghost use Rattle.std.specs.Prelude.{◌≡◌};

use std::alloc::AllocError;

/// What is wrong with a script.
#[derive(Clone, Copy)]
pub enum LangKind {
    /// A byte that is neither a space nor a visible character of ASCII.
    C1,
    /// No statement, whatever words stand for its numbers.
    C2,
    /// A word in place of a number that writes none.
    C3,
    /// The 257th statement, or parentheses that nest deeper than 64.
    C4,
    /// A name that is given twice.
    C5,
    /// A name that was not given before.
    C6,
    /// A kind of curve that is refused.
    C7,
    /// A condition of an operator that is not met.
    C8,
    /// An operator has too many pieces.
    TooMany,
    /// An operator has too wide numbers.
    TooWide,
    /// Memory ran out.
    NoMemory,
}

/// What is wrong, and the line, counted from 1. The line is 0 where memory ran out.
#[derive(Clone, Copy)]
pub struct LangFault {
    pub kind: LangKind,
    pub line: u32,
}

impl From<AllocError> for LangKind {
    ghost from_gives = { λ _ e. e ≡ NoMemory };

    fn from(_e: AllocError) -> LangKind {
        LangKind::NoMemory
    }
}
