//! The law. It is the contract of a function that does nothing.

ghost use Rattle.existence.specs.closures.Laws.{ClosuresExist};

/// Of a curve that is finite and nowhere below 0 the fold that makes its closure has an answer that is not want of
/// memory: the closure, or the limit that the first operator of the fold over one is over.
pub fn closures_exist()
    ensures { ClosuresExist }
{}
