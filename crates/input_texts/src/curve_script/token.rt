//! The words and signs of a line.

ghost use Rattle.std.specs.Prelude.{◌≡◌, ◌≤◌, ◌<◌, ◌==◌, length, take, drop, map, true, false, IfOk, Option, Some, None, option_map};
ghost use Rattle.std.specs.List.{list_all};
ghost use Rattle.input_texts.specs.curve_script.Tokens.{is_letter, is_digit, is_word_byte, starts_word};
ghost use Rattle.input_texts.specs.curve_script.Lexing.{class_of, lex, view};

use std::alloc::{AllocError, Global};

/// A sign of a script.
#[derive(Clone, Copy)]
pub enum Sign {
    Open,
    Close,
    Comma,
    Equals,
}

/// A word, by its bytes, or a sign.
#[derive(Clone, Copy)]
pub(crate) enum Token<'a> {
    Word(&'a [u8]),
    Mark(Sign),
}

/// What a byte of a line is part of.
#[derive(Clone, Copy)]
pub(crate) enum ByteClass {
    InWord,
    Blank,
    SignOf(Sign),
    Foreign,
}

#[tactic(auto, unfolding(crate::specs::curve_script::Tokens::is_letter))]
pub(crate) fn is_letter(byte: u8) -> bool
    ensures { result ≡ is_letter byte }
{
    (97 <= byte && byte <= 122) || (65 <= byte && byte <= 90)
}

#[tactic(auto, unfolding(crate::specs::curve_script::Tokens::is_digit))]
pub(crate) fn is_digit(byte: u8) -> bool
    ensures { result ≡ is_digit byte }
{
    48 <= byte && byte <= 57
}

#[tactic(auto, unfolding(crate::specs::curve_script::Tokens::is_word_byte))]
pub(crate) fn is_word_byte(byte: u8) -> bool
    ensures { result ≡ is_word_byte byte }
{
    is_letter(byte) || is_digit(byte) || byte == 95 || byte == 45 || byte == 47
}

#[tactic(auto, unfolding(crate::specs::curve_script::Lexing::class_of))]
fn class_of(byte: u8) -> ByteClass
    ensures { result ≡ class_of byte }
{
    if is_word_byte(byte) {
        ByteClass::InWord
    } else if byte == b' ' {
        ByteClass::Blank
    } else if byte == b'(' {
        ByteClass::SignOf(Sign::Open)
    } else if byte == b')' {
        ByteClass::SignOf(Sign::Close)
    } else if byte == b',' {
        ByteClass::SignOf(Sign::Comma)
    } else if byte == b'=' {
        ByteClass::SignOf(Sign::Equals)
    } else {
        ByteClass::Foreign
    }
}

// How many bytes of a word the text begins with.
fn word_len(text: &[u8]) -> usize
    ensures within { result ≤ length text.now }
    ensures word { list_all is_word_byte (take result text.now) ≡ true }
    ensures end { starts_word (drop result text.now) ≡ false }
{
    for (i, byte) in text.iter().enumerate() {
        if !is_word_byte(*byte) {
            return i;
        }
    }
    text.len()
}

/// The tokens of a line, or none where a byte belongs to no token.
pub(crate) fn tokens_of(alloc: Global, line: &[u8]) -> Result<Option<Vec<Token<'_>>>, AllocError>
    ensures { IfOk result (λ found. option_map (λ tokens. map view tokens.items) found ≡ lex line.now) }
{
    let mut tokens = Vec::new(alloc);
    let mut at = 0;
    while at < line.len() {
        match class_of(line[at]) {
            ByteClass::InWord => {
                let end = at + word_len(&line[at..]);
                tokens.push(Token::Word(&line[at..end]))?;
                at = end;
            }
            ByteClass::Blank => {
                at += 1;
            }
            ByteClass::SignOf(sign) => {
                tokens.push(Token::Mark(sign))?;
                at += 1;
            }
            ByteClass::Foreign => return Ok(None),
        }
    }
    Ok(Some(tokens))
}
