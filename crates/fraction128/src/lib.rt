//! Exact fractions whose numerator and denominator have at most 127 bits, with checked arithmetic.
#![tactic(auto)]

mod division;
mod fault;
mod fitting;
mod fraction;
pub mod laws;
mod multiple;
mod order;
mod products;
mod sums;
mod text;
pub mod wide_sums;

pub use division::{gcd_of, least_common_multiple};
pub use fault::{FracFault, FracText, Op, Wide};
pub use fitting::{
    difference, greater, greater_value, is_less, lesser, lesser_value, product, quotient, sum,
};
pub use fraction::{Ext, Frac};
pub use text::read_digits;
