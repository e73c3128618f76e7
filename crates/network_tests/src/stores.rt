//! Tests of lists by index and of tables of versions, worked out by hand.

#[cfg(test)]
mod links;
#[cfg(test)]
mod version_tables;
