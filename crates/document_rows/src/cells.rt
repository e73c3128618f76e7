//! What a cell is read as.

ghost use Rattle.std.specs.Prelude.{◌≡◌, ◌≤◌, IfOk};
ghost use Rattle.table_cells.specs.Amounts.{IsAmount};
ghost use Rattle.document_rows.specs.Cells as spec;

use crate::fault::Wrong;
use table_cells::{Amount, whole_in};

const LONGEST_TIME: u64 = 1_000_000_000;

const PICOSECONDS_IN_A_MICROSECOND: u64 = 1_000_000;

// An exact number.
fn number_in(cell: &[u8]) -> Result<Amount, Wrong>
    ensures value { result ≡ spec.number_in cell.now }
    ensures range { IfOk result IsAmount }
{
    if cell.is_empty() {
        return Err(Wrong::Empty);
    }
    match Amount::parse(cell) {
        Some(number) => Ok(number),
        None => Err(Wrong::NoNumber),
    }
}

// A number of which so many are one at least, and that is at most so much.
fn within(times: u64, most: u64, number: Amount) -> Result<Amount, Wrong>
    ensures { result ≡ spec.within times most number }
{
    if !number.reaches_one(times) {
        return Err(Wrong::TooSmall);
    }
    if !number.is_at_most(most) {
        return Err(Wrong::TooLarge);
    }
    Ok(number)
}

/// A time in microseconds, of at most 1,000 seconds.
pub(crate) fn time_in(cell: &[u8]) -> Result<Amount, Wrong>
    ensures value { result ≡ spec.time_in cell.now }
    ensures range { IfOk result IsAmount }
{
    let time = number_in(cell)?;
    if !time.is_at_most(LONGEST_TIME) {
        return Err(Wrong::TooLarge);
    }
    Ok(time)
}

/// The same, or 0 where the cell is empty.
pub(crate) fn time_or_zero(cell: &[u8]) -> Result<Amount, Wrong>
    ensures value { result ≡ spec.time_or_zero cell.now }
    ensures range { IfOk result IsAmount }
{
    if cell.is_empty() {
        return Ok(Amount::whole(0));
    }
    time_in(cell)
}

/// The time on a link: the same, in whole picoseconds.
pub(crate) fn link_time(cell: &[u8]) -> Result<Amount, Wrong>
    ensures { result ≡ spec.link_time cell.now }
{
    let time = time_or_zero(cell)?;
    if !time.is_whole(PICOSECONDS_IN_A_MICROSECOND) {
        return Err(Wrong::OffGrid);
    }
    Ok(time)
}

/// A rate in Mbit/s: a bit a second at least, and at most 10^6.
pub(crate) fn rate_in(cell: &[u8]) -> Result<Amount, Wrong>
    ensures { result ≡ spec.rate_in cell.now }
{
    within(1_000_000, 1_000_000, number_in(cell)?)
}

/// A gap in milliseconds: a picosecond at least, and at most 10^6.
pub(crate) fn gap_in(cell: &[u8]) -> Result<Amount, Wrong>
    ensures { result ≡ spec.gap_in cell.now }
{
    within(1_000_000_000, 1_000_000, number_in(cell)?)
}

/// A whole number in a range.
pub(crate) fn whole_between(least: u64, most: u64, cell: &[u8]) -> Result<u64, Wrong>
    ensures value { result ≡ spec.whole_between least most cell.now }
    ensures range { IfOk result (λ n. n ≤ most) }
{
    if cell.is_empty() {
        return Err(Wrong::Empty);
    }
    let Some(n) = whole_in(cell) else {
        return Err(Wrong::NoWhole);
    };
    if n < least {
        return Err(Wrong::TooSmall);
    }
    if most < n {
        return Err(Wrong::TooLarge);
    }
    Ok(n)
}
