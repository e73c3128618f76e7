//! What a command line asks for.

ghost use Rattle.std.specs.Prelude.{◌≡◌, ◌≤◌, IfOk, IfSome, option_map, map};
ghost use Rattle.clap.specs.Words.{first_of, rows_of};
ghost use Rattle.clap.specs.Matches.{found_of};
ghost use Rattle.clap.specs.declared.error.kind.ErrorKind.TheVariants as kinds;
ghost use Rattle.netbound_cli.specs.words.Requests as spec;
ghost use Rattle.netbound_cli.specs.words.View.{request_view, bounds_view, HasOverhead, TellsRequest, IsRefusal};

use crate::words::command::netbound;
use clap::ArgMatches;
use clap::error::ErrorKind;
use std::alloc::Global;
use table_cells::whole_in;

/// The bytes that a frame has on the wire beside its own, where no words tell.
const USUAL_OVERHEAD: u64 = 20;

/// The most bytes that words may tell.
const MOST_OVERHEAD: u64 = 1_048_576;

/// The bounds of the network of two tables.
#[derive(Clone, Copy)]
pub struct Bounds<'a> {
    /// The name of the file with the table of ports.
    pub ports: &'a str,
    /// The name of the file with the table of links.
    pub links: &'a str,
    /// The bytes that a frame has on the wire beside its own, at most 2^20.
    pub overhead: u64,
    /// Whether the report is to be JSON.
    pub json: bool,
}

/// What is asked for.
#[derive(Clone, Copy)]
pub enum Request<'a> {
    /// The bounds of the network of two tables.
    Bounds(Bounds<'a>),
    /// What the program does.
    Help,
    /// Which version the program is.
    Version,
}

/// Why words ask for nothing.
#[derive(Clone, Copy)]
pub enum WordFault {
    /// They are not taken.
    NotTaken,
    /// An allocation was refused.
    NoMemory,
}

// The overhead that a word writes: a whole number of bytes.
fn overhead_in(word: Option<&str>) -> Option<u64>
    ensures value { result ≡ spec.overhead_in (option_map (λ w. w.now) word.entry) }
    ensures range { IfSome result (λ bytes. bytes ≤ 1048576) }
{
    let Some(word) = word else {
        return Some(USUAL_OVERHEAD);
    };
    let bytes = whole_in(word.as_bytes())?;
    if bytes > MOST_OVERHEAD {
        return None;
    }
    Some(bytes)
}

// Whether a flag was given that has this value.
fn is_given(value: Option<&str>) -> bool
    ensures { result ≡ spec.is_given (option_map (λ w. w.now) value.entry) }
{
    match value {
        Some(word) => word == "true",
        None => false,
    }
}

// The value of an argument.
fn value_of<'a>(matches: &ArgMatches<'a>, id: &str) -> Option<&'a str>
    ensures { option_map (λ w. w.now) result ≡ first_of id.now (rows_of (found_of matches.now)) }
{
    matches.get_str(id)
}

// The bounds for which these matches ask.
fn bounds_in<'a>(matches: &ArgMatches<'a>) -> Option<Bounds<'a>>
    ensures value { option_map bounds_view result ≡ spec.bounds_in (rows_of (found_of matches.now)) }
    ensures range { IfSome result (λ b. b.overhead ≤ 1048576) }
{
    let Some(ports) = value_of(matches, "ports") else {
        return None;
    };
    let Some(links) = value_of(matches, "links") else {
        return None;
    };
    let Some(overhead) = overhead_in(value_of(matches, "overhead")) else {
        return None;
    };
    let json = is_given(value_of(matches, "json"));
    Some(Bounds {
        ports,
        links,
        overhead,
        json,
    })
}

// What is asked for where `clap` gives no matches.
fn refused<'a>(kind: ErrorKind) -> Result<Request<'a>, WordFault>
    ensures kind { IsRefusal kind result }
    ensures range { IfOk result HasOverhead }
{
    match kind {
        ErrorKind::DisplayHelp => Ok(Request::Help),
        ErrorKind::DisplayVersion => Ok(Request::Version),
        ErrorKind::OutOfMemory => Err(WordFault::NoMemory),
        _ => Err(WordFault::NotTaken),
    }
}

/// What the words of a command line ask for, the program's name first.
pub fn request_of<'a>(alloc: Global, words: &'a [String]) -> Result<Request<'a>, WordFault>
    ensures request { TellsRequest result (spec.request_of (spec.texts words.entry.now)) }
    ensures range { IfOk result HasOverhead }
{
    let Ok(command) = netbound(alloc) else {
        return Err(WordFault::NoMemory);
    };
    match command.try_get_matches_from(words) {
        Ok(matches) => match bounds_in(&matches) {
            Some(bounds) => Ok(Request::Bounds(bounds)),
            None => Err(WordFault::NotTaken),
        },
        Err(error) => refused(error.kind()),
    }
}
