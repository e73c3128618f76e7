//! That the closure of a curve is there, or the fold that makes it is over a limit.

mod laws;

pub use laws::closures_exist;
