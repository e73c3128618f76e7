//! How the subadditive closure of a function is made of those of its parts. Each function is a theorem: its contract is
//! the law, its body is empty.

ghost use Rattle.min_plus.specs.closure_laws.ClosureLaws.{StarOfLesser, StarOfClosure, ClosureOfStar, StarsAreOfValues};
ghost use Rattle.min_plus.specs.closure_laws.ClosureLaws.{ClosureOfCopies, ClosuresKeep};
ghost use Rattle.min_plus.specs.closure_laws.StarFolds.{StarOfLeast, ClosureOfSetBack};

/// The star, which is the closure with the sum of no value too: that of the lesser of two functions is the convolution
/// of theirs, and it follows from the closure and the closure from it.
pub fn stars()
    ensures lesser { StarOfLesser }
    ensures lowered { StarOfClosure }
    ensures closure { ClosureOfStar }
    ensures values { StarsAreOfValues }
{}

/// The closure of a function that repeats is the convolution of the closure of one period of it with a lattice.
pub fn copies()
    ensures { ClosureOfCopies }
{}

/// A closure is finite, nowhere below 0, and rising where the function is.
pub fn closures_keep()
    ensures { ClosuresKeep }
{}

/// The star of the least of some functions is the convolution of their stars, one after another; and a function that is
/// nowhere below 0 has its star past 0 and its own value at 0 for its closure.
pub fn star_folds()
    ensures least { StarOfLeast }
    ensures closure { ClosureOfSetBack }
{}
