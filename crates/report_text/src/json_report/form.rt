//! Forms of reports.

/// How a report is written.
#[derive(Clone, Copy)]
pub enum Form {
    /// Line by line, in words.
    Lines,
    /// One JSON value without a space, its keys in the order of their bytes, and a newline after it.
    Json,
}
