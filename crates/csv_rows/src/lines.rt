//! The lines on which rows begin.

ghost use Rattle.std.specs.Prelude.{◌≡◌, ◌≤◌, ◌<◌, ◌+◌, ◌^◌, false};
ghost use Rattle.csv.specs.Reading.{is_bom, strip_bom};
ghost use Rattle.csv_rows.specs.Places.{Goes, LeavesBehind, beyond, state_of};
ghost use Rattle.csv_rows.specs.Rows.{from_row, is_row_end, line_ends};
ghost use Rattle.csv_rows.specs.declared.lines.Place.TheVariants as places;
ghost use Rattle.csv.specs.declared.parser.State.TheVariants as st;

/// Where a byte of a text finds itself.
#[derive(Clone, Copy, PartialEq)]
enum Place {
    Between,
    CellStart,
    Plain,
    Quoted,
    AfterQuote,
}

/// Goes over the rows of a text.
#[derive(Drop)]
pub(crate) struct Lines<'a> {
    rest: &'a [u8],
    line: usize,
}

// The place behind a byte that is no quote, in a cell.
fn place_in_cell(byte: u8) -> Place
    ensures { Goes st.InField byte result }
{
    match byte {
        b',' => Place::CellStart,
        b'\r' | b'\n' => Place::Between,
        _ => Place::Plain,
    }
}

// The place behind a byte above the comma, which is neither that nor a quote nor ends a row.
fn place_beyond(place: Place) -> Place
    ensures { result ≡ beyond place }
{
    match place {
        Place::Quoted => Place::Quoted,
        _ => Place::Plain,
    }
}

// The place behind a byte up to the comma, which ends no row between rows.
fn place_among(place: Place, byte: u8) -> Place
    requires { place ≡ places.Between → is_row_end byte ≡ false }
    ensures { Goes (state_of place) byte result }
{
    match (place, byte) {
        (Place::Quoted, b'"') => Place::AfterQuote,
        (Place::Quoted, _) => Place::Quoted,
        (Place::AfterQuote | Place::Between | Place::CellStart, b'"') => Place::Quoted,
        _ => place_in_cell(byte),
    }
}

// The place behind a byte, which ends no row between rows.
fn place_after(place: Place, byte: u8) -> Place
    requires { place ≡ places.Between → is_row_end byte ≡ false }
    ensures { Goes (state_of place) byte result }
{
    if byte > b',' {
        return place_beyond(place);
    }
    place_among(place, byte)
}

fn is_mark(first: u8, second: u8, third: u8) -> bool
    ensures { result ≡ is_bom first second third }
{
    first == 0xef && second == 0xbb && third == 0xbf
}

// A text without a byte order mark at its front.
fn without_mark(text: &[u8]) -> &[u8]
    ensures { result.now ≡ strip_bom text.now }
{
    if text.len() < 3 {
        return text;
    }
    if is_mark(text[0], text[1], text[2]) {
        return &text[3..];
    }
    text
}

/// Before the first row of a text. A byte order mark is no part of it.
pub(crate) fn lines_of(text: &[u8]) -> Lines<'_>
    ensures rest { result.rest.now ≡ strip_bom text.now }
    ensures line { result.line ≡ 1 }
{
    Lines {
        rest: without_mark(text),
        line: 1,
    }
}

// What is left of a text from its first row on, and how many lines end before it.
fn to_row(text: &[u8]) -> (&[u8], usize)
    ensures row { result.0.now ≡ from_row text.now }
    ensures lines { result.1 + line_ends result.0.now ≡ line_ends text.now }
{
    let mut lines = 0;
    for at in 0..text.len() {
        match text[at] {
            b'\n' => lines += 1,
            b'\r' => {}
            _ => return (&text[at..], lines),
        }
    }
    (&[], lines)
}

// What is left of a text behind the row at its front, and how many lines end in that.
fn over_row(text: &[u8]) -> (&[u8], usize)
    requires { from_row text.now ≡ text.now }
    ensures left { LeavesBehind text.now result.0.now }
    ensures lines { result.1 + line_ends result.0.now ≡ line_ends text.now }
{
    let mut place = Place::Between;
    let mut lines = 0;
    for at in 0..text.len() {
        place = place_after(place, text[at]);
        if place == Place::Between {
            return (&text[at..], lines);
        }
        if text[at] == b'\n' {
            lines += 1;
        }
    }
    (&[], lines)
}

impl Lines<'_> {
    /// The line on which the next row begins, counted from 1, and passes over that row. A cell in quotes may have ends of
    /// lines.
    pub(crate) fn next_line(&mut self) -> usize
        requires { self.old.line + line_ends self.old.rest.now < 2 ^ 64 }
        ensures line { result + line_ends (from_row self.old.rest.now) ≡ self.old.line + line_ends self.old.rest.now }
        ensures grows { (self.old.line ≤ result) × (result ≤ self.new.line) }
        ensures all { self.new.line + line_ends self.new.rest.now ≡ self.old.line + line_ends self.old.rest.now }
        ensures left { LeavesBehind (from_row self.old.rest.now) self.new.rest.now }
    {
        let (row, before) = to_row(self.rest);
        let line = self.line + before;
        let (rest, inner) = over_row(row);
        self.rest = rest;
        self.line = line + inner;
        line
    }
}
