//! What makes a convolution of curves out of those of elements: theorems, by their contracts.

ghost use Rattle.element_envelope.specs.ConvolutionLaws.{PiecesAreCovered, EnvelopeRules};
ghost use Rattle.element_envelope.specs.ConvolutionLaws.{PairsConvolveWindows, PairsConvolveCurves};
ghost use Rattle.element_envelope.specs.WindowLaws.{SumCutsFit, SumLowerFits, SumLowerIsOne};
ghost use Rattle.element_envelope.specs.Copies.{StartsSuffice, CopyRules};
ghost use Rattle.element_envelope.specs.LimitCopies.{LimitsSuffice};
ghost use Rattle.element_envelope.specs.Turnings.{TurnsSuffice};
ghost use Rattle.element_envelope.specs.OneSide.{OneSideSuffices};
ghost use Rattle.element_envelope.specs.RunningLines.{RunningSuffices};
ghost use Rattle.element_envelope.specs.RoomLaws.{ElementsStand, JoinedStand};
ghost use Rattle.element_envelope.specs.Found.{PairsExist, EnvelopesExist};
ghost use Rattle.element_envelope.specs.Found.{ConvolutionsFromExist, ConvolutionWindowsExist};

/// The elements of pieces: each reads as the pieces at its times, and a time with a finite value is a time of exactly
/// one of them.
pub fn pieces_are_covered()
    ensures { PiecesAreCovered }
{}

/// How the least of the pairs of two lists comes from those of parts of the lists, and of one pair.
pub fn envelopes_join()
    ensures { EnvelopeRules }
{}

/// Before the end of two windows, the least of all pairs of their elements is their convolution; and so for curves,
/// with the pieces that start before that end.
pub fn pairs_convolve()
    ensures windows { PairsConvolveWindows }
    ensures curves { PairsConvolveCurves }
{}

/// The elements of an operand's pieces stand on the grids of its call and within its sizes, and so does what two of
/// them make.
pub fn elements_have_room()
    ensures elements { ElementsStand }
    ensures joined { JoinedStand }
{}

/// Of two windows of what elements make no step of the cuts or of the lower is too wide, and the lower is one again.
pub fn sum_windows_have_a_lower()
    ensures cuts { SumCutsFit }
    ensures steps { SumLowerFits }
    ensures lower { SumLowerIsOne }
{}

/// Of two windows whose values at starts are at most the limits beside them, the convolution is among the sums of which
/// one of both times is a start: the lesser of the copies of each at the starts of the other.
pub fn starts_suffice()
    ensures { StartsSuffice }
{}

/// Of those starts only the ones count at which the window does not bend downwards: it does where a line goes on, there,
/// with a smaller slope.
pub fn turns_suffice()
    ensures { TurnsSuffice }
{}

/// Where one never falls and gains no more than the lines of the other rise that rise, the copies of the one at those starts of the
/// other count that no level line follows, and the one copy at its own first start.
pub fn one_side_suffices()
    ensures { OneSideSuffices }
{}

/// Where one is a line from 0 on, which starts on it or below it, the convolution is the lesser of the other's copy at its start, and
/// of the line itself, moved to the lowest, by then, of the other's values at starts and of the limits beside them.
pub fn running_lines_suffice()
    ensures { RunningSuffices }
{}

/// Of any two windows, with spikes and infinite parts, the convolution is the least of the copies of each at the starts of
/// the other: by their values, by the limits before a start and after a time, and by those after and before.
pub fn limits_suffice()
    ensures { LimitsSuffice }
{}

/// How the least of copies comes from that of parts of the starts, and of one start.
pub fn copies_join()
    ensures { CopyRules }
{}

/// What two elements make exists, and so does the least of all pairs of two lists of them, as a window.
pub fn envelopes_exist()
    ensures pairs { PairsExist }
    ensures lists { EnvelopesExist }
{}

/// Two windows of operands have a convolution, as a window; and so have two that are made of operands', from a time on.
pub fn window_convolutions_exist()
    ensures from { ConvolutionsFromExist }
    ensures windows { ConvolutionWindowsExist }
{}
