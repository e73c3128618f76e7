//! Bytes that stand in tables and scripts.

mod plain;

pub use plain::is_plain;
