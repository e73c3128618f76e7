//! The words with which rows of an edit list begin.

ghost use Rattle.std.specs.Prelude.{◌≡◌};
ghost use Rattle.input_texts.specs.table_text.EditRows as spec;

/// The words that ask for a server's name and a number.
#[derive(Clone, Copy)]
pub enum OneNumber {
    Rate,
    Latency,
    Link,
}

/// The words that ask for a flow's name and two numbers.
#[derive(Clone, Copy)]
pub enum TwoNumbers {
    Bucket,
    Stair,
}

/// The words with which rows begin.
#[derive(Clone, Copy)]
pub enum EditWord {
    One(OneNumber),
    Two(TwoNumbers),
    Quantum,
    Packet,
    Route,
    Add,
    Drop,
    Undo,
}

fn number_word(text: &str) -> Option<EditWord>
    ensures { result ≡ spec.number_word text.now }
{
    if text == "rate" {
        return Some(EditWord::One(OneNumber::Rate));
    }
    if text == "latency" {
        return Some(EditWord::One(OneNumber::Latency));
    }
    if text == "link" {
        return Some(EditWord::One(OneNumber::Link));
    }
    if text == "bucket" {
        return Some(EditWord::Two(TwoNumbers::Bucket));
    }
    if text == "stair" {
        return Some(EditWord::Two(TwoNumbers::Stair));
    }
    None
}

fn other_word(text: &str) -> Option<EditWord>
    ensures { result ≡ spec.other_word text.now }
{
    if text == "quantum" {
        return Some(EditWord::Quantum);
    }
    if text == "packet" {
        return Some(EditWord::Packet);
    }
    if text == "route" {
        return Some(EditWord::Route);
    }
    if text == "add" {
        return Some(EditWord::Add);
    }
    if text == "drop" {
        return Some(EditWord::Drop);
    }
    if text == "undo" {
        return Some(EditWord::Undo);
    }
    None
}

/// The word that a text is.
pub(crate) fn edit_word(text: &str) -> Option<EditWord>
    ensures { result ≡ spec.edit_word text.now }
{
    match number_word(text) {
        Some(word) => Some(word),
        None => other_word(text),
    }
}

/// How many fields a row has that begins with the word.
pub(crate) fn field_count(word: EditWord) -> usize
    ensures { result ≡ spec.field_count word }
{
    match word {
        EditWord::One(_) => 3,
        EditWord::Two(_) => 4,
        EditWord::Quantum => 4,
        EditWord::Packet => 3,
        EditWord::Route => 3,
        EditWord::Add => 6,
        EditWord::Drop => 2,
        EditWord::Undo => 1,
    }
}
