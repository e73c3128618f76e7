//! Values, and answers of the operators, that were worked out by hand. Each is the contract of a function that does
//! nothing.

ghost use Rattle.upp_curve.specs.WorkedRows.{StairRows, GateRows, BucketRows, RateLatencyRows, MinimumRows};
ghost use Rattle.upp_curve.specs.WorkedRows.{RunningRows, ConvolutionRows};
ghost use Rattle.upp_curve.specs.WorkedStairs.{StairFormula, TwoStairs, StairLeaves, JumpLeaves};
ghost use Rattle.upp_curve.specs.WorkedShifts.{ShiftRows, ScaleRows, MinusRows, DifferenceRows, LeftOverRows};

/// Values of the kinds of curve that were worked out by hand.
pub fn worked_kinds()
    ensures stair { StairRows }
    ensures gate { GateRows }
    ensures bucket { BucketRows }
    ensures rate_latency { RateLatencyRows }
{}

/// Answers of the operators that were worked out by hand.
pub fn worked_operators()
    ensures minimum { MinimumRows }
    ensures running { RunningRows }
    ensures convolution { ConvolutionRows }
{}

/// The value of a stair without jitter at each time, and its convolution and deconvolution worked out by hand; and a
/// deconvolution whose supremum no time takes.
pub fn worked_stairs()
    ensures formula { StairFormula }
    ensures convolution { TwoStairs }
    ensures deconvolution { StairLeaves }
    ensures jump { JumpLeaves }
{}

/// Shifts, multiples, differences and what first in, first out leaves, worked out by hand.
pub fn worked_shifts()
    ensures shift { ShiftRows }
    ensures scale { ScaleRows }
    ensures minus { MinusRows }
    ensures difference { DifferenceRows }
    ensures left_over { LeftOverRows }
{}
