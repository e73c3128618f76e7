//! Small networks of trees, numbers that bound every run of them, and runs that reach these; and a small lawful view of
//! a server that shows what the law of the service of a class leaves out: since when it is served.
//!
//! A law is the contract of a function that does nothing: its body is empty, and its `ensures` is proved.
#![tactic(auto)]

ghost use Rattle.worked_trees.specs.OwnPeriod.{OwnPeriodIsTooShort};
ghost use Rattle.worked_trees.specs.PacedFork.{BranchReachesItsSum};

/// A periodic flow over a fork of three servers of a limited pace: every run that keeps its premises is within
/// numbers, and one reaches those of a branch.
pub fn a_branch_reaches_its_sum()
    ensures { BranchReachesItsSum }
{}

/// What a server of any discipline leaves to a class is not what serves it since the class's own backlogged period
/// began, but since the server's did: all that `rest_serves` asks holds of a view in which the class gets less.
pub fn own_period_is_too_short()
    ensures { OwnPeriodIsTooShort }
{}
