//! Bytes at the end of a text.

ghost use Rattle.std.specs.Prelude.{◌≡◌, ◌++◌, OnOk};
ghost use Rattle.std.specs.Fmt.{decimal};
ghost use Rattle.input_texts.specs.plain_text.Numbers.{number_text};

use fraction128::Ext;
use itoa::Buffer;
use rational::Extended;
use std::alloc::AllocError;

/// Appends a text.
pub fn push_text(into: &mut Vec<u8>, text: &str) -> Result<(), AllocError>
    ensures { OnOk result (into.new.items ≡ into.old.items ++ text.now) }
{
    into.extend_from_slice(text.as_bytes())?;
    Ok(())
}

/// Appends words, and a text after them.
pub fn push_after(into: &mut Vec<u8>, words: &str, text: &str) -> Result<(), AllocError>
    ensures { OnOk result (into.new.items ≡ into.old.items ++ (words.now ++ text.now)) }
{
    push_text(into, words)?;
    push_text(into, text)
}

/// Appends a number.
pub fn push_decimal(into: &mut Vec<u8>, number: usize) -> Result<(), AllocError>
    ensures { OnOk result (into.new.items ≡ into.old.items ++ decimal number) }
{
    let mut digits = Buffer::new();
    push_text(into, digits.format(number))
}

/// Appends a number, or `unbounded` for infinity.
pub fn push_number(into: &mut Vec<u8>, number: &Ext) -> Result<(), AllocError>
    ensures { OnOk result (into.new.items ≡ into.old.items ++ number_text number.now) }
{
    match number {
        Extended::Inf => push_text(into, "unbounded"),
        Extended::Fin(fraction) => fraction.print(into),
    }
}
