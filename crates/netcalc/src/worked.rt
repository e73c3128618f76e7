//! The worked examples of the specification, and some of them with a fetch or a put that fails, as whole commands in memory.

use crate::cases::CASES;
use crate::run_counted;
use outside::{MemInputs, MemSink};
use std::alloc::Global;
use std::marker::Brand;
use std::process::Abort;
use std::sync::ledger::Blank;
use std::test::Fail;

/// The words of a command line, which are separated by single spaces.
fn words_in(alloc: Global, line: &str) -> Result<Vec<String>, Fail> {
    let mut all = Vec::new(alloc);
    for word in line.split(' ') {
        all.push(String::from_str(alloc, word)?)?;
    }
    Ok(all)
}

/// The files of names and texts, which follow one another.
fn files_in(alloc: Global, parts: &[&str]) -> Result<Vec<(String, Vec<u8>)>, Fail> {
    let mut held = Vec::new(alloc);
    for pair in parts.chunks(2) {
        if let [name, text] = pair {
            held.push((
                String::from_str(alloc, name)?,
                Vec::from_slice(alloc, text.as_bytes())?,
            ))?;
        }
    }
    Ok(held)
}

/// Numbers of one digit each.
fn numbers_in(alloc: Global, digits: &str) -> Result<Vec<u32>, Fail> {
    let mut all = Vec::new(alloc);
    for digit in digits.chars() {
        all.push(digit.to_digit(10).ok_or("no digit")?)?;
    }
    Ok(all)
}

/// What these words give where these files lie, and the fetches and the puts of these numbers fail: the status, and the bytes that are
/// written.
fn ask(
    alloc: Global,
    line: &str,
    files: &[&str],
    fetches: &str,
    puts: &str,
) -> Result<(u8, Vec<u8>), Fail> {
    let words = words_in(alloc, line)?;
    let mut inputs = MemInputs::new(files_in(alloc, files)?, numbers_in(alloc, fetches)?);
    let mut out = MemSink::new(numbers_in(alloc, puts)?)?;
    let status = run_counted::<MemInputs, MemSink, Brand>(
        Blank::new(1),
        &words,
        &mut inputs,
        &mut out,
    );
    Ok((status, Vec::from_slice(alloc, out.bytes())?))
}

/// That the words of a case give what it tells. Its parts are separated by `|`.
pub(crate) fn check(rt: &impl Abort, alloc: Global, case: &str) -> Result<(), Fail> {
    let parts: Vec<&str> = case.split('|').collect(alloc)?;
    let [name, fetches, puts, line, status, wanted, files @ ..] = parts.as_slice() else {
        return Err(Fail::from("a case of too few parts"));
    };
    let (got, bytes) = ask(alloc, line, files, fetches, puts)?;
    // A status is one digit.
    let is_told = numbers_in(alloc, status)?.as_slice() == [u32::from(got)].as_slice();
    let is_wanted = is_told && bytes.as_slice() == wanted.as_bytes();
    assert!(rt; is_wanted, "{name}");
    Ok(())
}

#[test]
fn worked_examples(rt: HostRuntime) -> Result<(), Fail> {
    let alloc = rt.alloc();
    for case in CASES.split('~') {
        check(&rt, alloc, case)?;
    }
    Ok(())
}
