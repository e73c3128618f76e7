//! What the fold makes. Each function is a theorem: its contract is the law, its body is empty.

ghost use Rattle.subadd_closure.specs.PartLaws.{PartsMakeCurve, PartsAreParts};
ghost use Rattle.subadd_closure.specs.FoldLaws.{PartAnswerIsStar, CloseAnswerIsClosure};
ghost use Rattle.subadd_closure.specs.FoldLaws.{CloseAnswerIsDetermined};

/// A finite curve is at each time the least of its parts, and each part is a proper element from 0 on, read with its
/// copies.
pub fn curve_parts()
    ensures least { PartsMakeCurve }
    ensures each { PartsAreParts }
{}

/// What the fold of a curve answers: for a part its star, and for a finite curve that is nowhere below 0 its closure.
pub fn fold_answers()
    ensures part { PartAnswerIsStar }
    ensures closure { CloseAnswerIsClosure }
{}

/// Want of memory apart, the fold of a curve has one answer.
pub fn fold_is_determined()
    ensures { CloseAnswerIsDetermined }
{}
