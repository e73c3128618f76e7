//! What holds of all scripts that are evaluated.

ghost use Rattle.curve_lang.specs.Laws.{FoundIsMeant, AnswersAreMeant, ScriptsFindOne};

/// A curve that an expression finds has the values that the expression means, at every time from 0 on.
pub fn found_is_meant()
    ensures { FoundIsMeant }
{}

/// The answers that a script finds are the numbers, truths and curves that it means.
pub fn answers_are_meant()
    ensures { AnswersAreMeant }
{}

/// Want of memory apart, a script finds one thing at most: its answers, or its first fault at its line.
pub fn scripts_find_one()
    ensures { ScriptsFindOne }
{}
