//! What the texts of a report say.

ghost use Rattle.bounds_report.specs.Laws.{TextsAreNumbers};

/// The text of a load, of a time and of a backlog, read as a cell of a table is, is the number that it tells: a time rounded
/// up to thousandths of a microsecond, a load below 10^15 in thousandths, a backlog as it is.
pub fn texts_are_numbers()
    ensures { TextsAreNumbers }
{}
