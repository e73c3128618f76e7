//! Tests of numbers, lines and curves, worked out by hand.

#[cfg(test)]
mod fractions;
#[cfg(test)]
mod lines;
#[cfg(test)]
mod normal_forms;
#[cfg(test)]
mod own_limits;
