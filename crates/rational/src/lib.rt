//! The exact numbers of the specification: rationals, rationals with infinity, their bounds, and
//! where they stand. The numbers themselves are in `specs/`; the functions here are theorems about
//! them, by their contracts.
#![tactic(auto)]

ghost use Rattle.std.specs.Prelude.{◌≡◌, ◌↔◌, true, MatchOption};
ghost use Rattle.rational.specs.declared.Extended.TheVariants.{Fin, Inf};

pub mod bound_laws;
pub mod extended_laws;
pub mod field_laws;
pub mod grid_laws;

/// A number, or infinity above every number.
#[derive(Debug, Clone, Copy)]
pub enum Extended<T> {
    /// A finite number.
    Fin(T),
    /// Infinity.
    Inf,
}

impl<T> Extended<T> {
    /// Whether this is infinity.
    pub fn is_infinite(&self) -> bool
        ensures { (result ≡ true) ↔ (self.now ≡ Inf) }
    {
        match self {
            Extended::Fin(_) => false,
            Extended::Inf => true,
        }
    }
}

impl<T: Copy> Extended<T> {
    /// The number, where this is finite.
    pub fn finite(&self) -> Option<T>
        ensures { MatchOption result (self.now ≡ Inf) (λ x. self.now ≡ Fin x) }
    {
        match self {
            Extended::Fin(x) => Some(*x),
            Extended::Inf => None,
        }
    }
}
