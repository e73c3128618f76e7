//! Tests of workloads.

#[cfg(test)]
mod workloads;
