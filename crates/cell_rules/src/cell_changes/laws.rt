ghost use Rattle.cell_rules.specs.cell_changes.Slots.{SlotsAreOwn};
ghost use Rattle.cell_rules.specs.cell_changes.Laws.{NoneIsBoth, UntouchedStay, UntouchedCarryOver, TouchedAnswersSuffice};
ghost use Rattle.cell_rules.specs.cell_changes.Laws.{FirstOverIsTouched, OneTouchedList};

/// No cell is both touched and untouched.
pub fn none_is_both()
    ensures { NoneIsBoth }
{}

/// An untouched cell has the same value by each table of the old network and each of the new one.
pub fn untouched_stay()
    ensures { UntouchedStay }
{}

/// A table that keeps the old values of the untouched cells meets the new equations there, and has the new answers.
pub fn untouched_carry_over()
    ensures { UntouchedCarryOver }
{}

/// So some cells are answered where the touched ones of them are.
pub fn touched_answers_suffice()
    ensures { TouchedAnswersSuffice }
{}

/// The first cell over a limit is no untouched one.
pub fn first_over_is_touched()
    ensures { FirstOverIsTouched }
{}

/// Every cell of a network has a place, and no two cells share one.
pub fn slots_are_own()
    ensures { SlotsAreOwn }
{}

/// Which cells are touched is one list, by any order of the cells.
pub fn one_touched_list()
    ensures { OneTouchedList }
{}
