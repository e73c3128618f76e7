//! The laws. Each is the contract of a function that does nothing.

ghost use Rattle.existence.specs.curves.Forms.{CurvesExist, FormsWithRoomExist, NormalFormsExist};
ghost use Rattle.existence.specs.curves.LeastPeriods.{LeastPeriodsExist};
ghost use Rattle.existence.specs.curves.Answers.{AnswerWindowsHaveCurves, DecidedCallsHaveAnswers};
ghost use Rattle.existence.specs.curves.Horizontals.{HorizontalsExist};
ghost use Rattle.existence.specs.curves.Convolutions.{ConvolutionsExist};
ghost use Rattle.existence.specs.curves.LeftOvers.{LeftOversExist};
ghost use Rattle.existence.specs.curves.Pointwise.{AnswersExist};
ghost use Rattle.existence.specs.curves.Running.{SupremaExist, InfimaExist};
ghost use Rattle.existence.specs.curves.Verticals.{VerticalsExist};
ghost use Rattle.existence.specs.curves.Deconvolutions.{DeconvolutionsExist};

/// Each curve in any form has a normal form with its values, whatever its numbers are.
pub fn normal_forms_exist()
    ensures { NormalFormsExist }
{}

/// The normal form of a curve whose own gauge is below 2^120 is a curve: what is read of it fits. So is that of one
/// whose numbers have room and whose fractions of a period stand on its grids.
pub fn curves_exist()
    ensures own { CurvesExist }
    ensures room { FormsWithRoomExist }
{}

/// Of two curves that are compared from a time on, with a period, either some number of periods is the least after which the
/// slower is nowhere above the faster for a period, or none is enough.
pub fn least_periods_exist()
    ensures { LeastPeriodsExist }
{}

/// Pieces in a call's window, as an operator makes them, have a curve that repeats them.
pub fn answer_windows_have_curves()
    ensures { AnswerWindowsHaveCurves }
{}

/// A call has an answer that is not want of memory, where it is known which numbers of periods it needs, if any, and
/// where within both limits a curve is made by it.
pub fn decided_calls_have_answers()
    ensures { DecidedCallsHaveAnswers }
{}

/// Two curves that rise, the second finite, have a horizontal deviation, or their call is over a limit.
pub fn horizontals_exist()
    ensures { HorizontalsExist }
{}

/// Two curves have a convolution, or its call is over a limit.
pub fn convolutions_exist()
    ensures { ConvolutionsExist }
{}

/// A service that is finite, never falls and is nowhere below 0 has a left-over beside a cross traffic, after the
/// horizontal deviation of the two, or the call is over a limit.
pub fn left_overs_exist()
    ensures { LeftOversExist }
{}

/// Each call of these operators has an answer that is not want of memory: a curve, or the limit that it is over.
pub fn answers_exist()
    ensures { AnswersExist }
{}

/// A curve that is finite and nowhere below 0 has a running supremum, or its call is over a limit.
pub fn suprema_exist()
    ensures { SupremaExist }
{}

/// A curve that is finite and nowhere below 0 has a running infimum, or its call is over a limit.
pub fn infima_exist()
    ensures { InfimaExist }
{}

/// Two curves, the second finite, have a vertical deviation, or their call is over a limit.
pub fn verticals_exist()
    ensures { VerticalsExist }
{}

/// Two curves of which the second is finite have a deconvolution, or its call is over a limit.
pub fn deconvolutions_exist()
    ensures { DeconvolutionsExist }
{}
