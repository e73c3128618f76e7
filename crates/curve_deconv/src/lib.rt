//! The deconvolution of two curves. Minus the first is convolved with the second mirrored in time, by the pairs of
//! their elements.
#![tactic(auto)]

pub mod laws;
mod marks;
mod mirroring;
mod operator;
mod window;

pub use operator::deconvolve;
