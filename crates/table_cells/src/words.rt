//! Words of a cell.

ghost use Rattle.std.specs.Prelude.{◌≡◌, ◌<◌, ◌++◌, [], length, map, slice_index_or, IfOk, OnOk};
ghost use Rattle.table_cells.specs.Words as spec;

use std::alloc::{AllocError, Global};

// Puts a word behind others, unless it has no bytes.
fn push_word<'a>(words: &mut Vec<&'a [u8]>, word: &'a [u8]) -> Result<(), AllocError>
    ensures { OnOk result (map (λ word. word.now) words.new.items
        ≡ map (λ word. word.now) words.old.items ++ spec.ended word.now []) }
{
    if !word.is_empty() {
        words.push(word)?;
    }
    Ok(())
}

/// Room for so many words is made at once: most cells have no more.
const USUAL_WORDS: usize = 8;

/// What stands between the blanks of a cell (ASCII white space), in order.
pub fn words_in(alloc: Global, cell: &[u8]) -> Result<Vec<&[u8]>, AllocError>
    ensures { IfOk result (λ words. map (λ word. word.now) words.items ≡ spec.words_of cell.now) }
{
    let mut words = Vec::with_capacity(alloc, USUAL_WORDS)?;
    let mut start = 0;
    for (at, byte) in cell.iter().enumerate() {
        if byte.is_ascii_whitespace() {
            push_word(&mut words, &cell[start..at])?;
            start = at + 1;
        }
    }
    push_word(&mut words, &cell[start..])?;
    Ok(words)
}

/// One of several words.
pub fn word_at<'a>(words: &[&'a [u8]], place: usize) -> &'a [u8]
    requires { place < length words.now }
    ensures { result.now ≡ slice_index_or (map (λ word. word.now) words.now) place [] }
{
    words[place]
}
