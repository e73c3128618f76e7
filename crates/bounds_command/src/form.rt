//! How a report is written.

/// The form of a report.
#[derive(Clone, Copy)]
pub enum Form {
    /// Line by line.
    Lines,
    /// One JSON value.
    Json,
}
