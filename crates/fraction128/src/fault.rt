//! Why a fraction could not be made, and which step of arithmetic was too wide.

use crate::fraction::Frac;

/// Why two numbers make no fraction.
#[derive(Debug, Clone, Copy, PartialEq, Eq)]
pub enum FracFault {
    /// The denominator is 0.
    ZeroDen,
    /// In lowest terms the numerator or the denominator is above 2^127 - 1 in size.
    TooBig,
}

/// Why a text is no fraction. The first of these, in this order, is answered.
#[derive(Debug, Clone, Copy, PartialEq, Eq)]
pub enum FracText {
    /// It is not `p` or `p/q`, where p is digits after an optional minus sign, and q is digits.
    Form,
    /// A written number is above 2^127 - 1 in size.
    Past,
    /// The number after the slash is 0.
    ZeroDen,
}

/// The operators of checked arithmetic.
#[derive(Debug, Clone, Copy, PartialEq, Eq)]
pub enum Op {
    /// The sum.
    Add,
    /// The difference, the first less the second.
    Sub,
    /// The product.
    Mul,
    /// The quotient, the first by the second.
    Div,
    /// The least common multiple.
    Lcm,
}

/// A step of arithmetic whose numbers did not fit: the operator and both operands.
#[derive(Debug, Clone, Copy, PartialEq, Eq)]
pub struct Wide {
    pub op: Op,
    pub a: Frac,
    pub b: Frac,
}
