//! The words of the command line.

use crate::NoMemory;
use std::alloc::Global;
use std::env::FillError;
use std::rt::Env;

/// The bytes of a word that are tried first; of a longer word twice as many, again and again.
const FIRST_ROOM: usize = 256;

// The bytes of the word at this place; none behind the last one.
fn bytes_at<R: Env>(rt: &R, alloc: Global, place: usize) -> Result<Option<Vec<u8>>, NoMemory> {
    let mut room = FIRST_ROOM;
    for _ in 0..usize::BITS {
        let mut bytes = Vec::new(alloc);
        bytes.resize(room, 0u8)?;
        match rt.arg(place, bytes.as_mut_slice()) {
            Ok(count) => {
                bytes.truncate(count);
                return Ok(Some(bytes));
            }
            Err(FillError::NotPresent) => return Ok(None),
            Err(FillError::TooLong) => room = room.saturating_add(room),
        }
    }
    Err(NoMemory)
}

/// The words of the command line. In one that is not UTF-8 U+FFFD stands in place of each part that is none; `DirInputs`
/// reads no file by such a name, so none is read in the place of the one that was meant.
pub fn words_of<R: Env + AllocGlobal>(rt: &R) -> Result<Vec<String>, NoMemory> {
    let alloc = rt.alloc();
    let mut words = Vec::new(alloc);
    for place in 0..usize::MAX {
        match bytes_at(rt, alloc, place)? {
            Some(bytes) => words.push(String::from_utf8_lossy(alloc, bytes.as_slice())?)?,
            None => return Ok(words),
        }
    }
    Ok(words)
}
