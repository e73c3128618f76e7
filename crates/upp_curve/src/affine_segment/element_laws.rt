//! How elements are read: theorems, by their contracts.

ghost use Rattle.upp_curve.specs.affine_segment.ElementLaws.{ElementsAreRead, JoinedAreRead};

/// An element has its value at its times, and infinity elsewhere. Of the parts of an answer each has its value at its
/// own times, and elsewhere the answer is infinity.
pub fn elements_are_read()
    ensures elements { ElementsAreRead }
    ensures joined { JoinedAreRead }
{}
