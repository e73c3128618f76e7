//! The laws of infima and suprema, for families over any types `I` and `J`. Each function is a
//! theorem: its contract is the law, its body is empty.

ghost use Rattle.rational.specs.Rational.{ℚ, ◌<ℚ◌};
ghost use Rattle.rational.specs.BoundLaws.{InfimumIsGreatest, SupremumIsLeast, InfimumOfDominated};
ghost use Rattle.rational.specs.BoundLaws.{SupremumOfDominated, InfimumOfShifted, SupremumOfShifted, InfimumOfUnion};
ghost use Rattle.rational.specs.BoundLaws.{SupremumOfUnion, InfimumOfSums, SupremumOfSums, BoundsReflect};
ghost use Rattle.rational.specs.BoundLaws.{LineOnStretch, LineWithoutEnd};

/// An infimum is the greatest lower bound, a supremum the least upper bound, and there is at most one of each.
pub fn bounds_are_unique<I>()
    ensures infimum { InfimumIsGreatest I }
    ensures supremum { SupremumIsLeast I }
{}

/// Families that dominate each other have the same bounds.
pub fn dominated_families<I, J>()
    ensures infimum { InfimumOfDominated I J }
    ensures supremum { SupremumOfDominated I J }
{}

/// A family moved by a number has its bounds moved by it.
pub fn shifted_families<I, J>()
    ensures infimum { InfimumOfShifted I J }
    ensures supremum { SupremumOfShifted I J }
{}

/// The bounds of two families together are the lesser infimum and the greater supremum.
pub fn united_families<I, J>()
    ensures infimum { InfimumOfUnion I J }
    ensures supremum { SupremumOfUnion I J }
{}

/// The bounds of the sums of a member of each family are the sums of the bounds.
pub fn summed_families<I, J>()
    ensures infimum { InfimumOfSums I J }
    ensures supremum { SupremumOfSums I J }
{}

/// A family of numbers taken from one number has its bounds mirrored.
pub fn reflected_family<I>()
    ensures { BoundsReflect I }
{}

/// The bounds of a line on an open stretch are its limits at the ends.
pub fn line_on_stretch()
    ensures bounded { (lo hi a r : ℚ) → lo <ℚ hi → LineOnStretch lo hi a r }
    ensures endless { (lo a r : ℚ) → LineWithoutEnd lo a r }
{}
