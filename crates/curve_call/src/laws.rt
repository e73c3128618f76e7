ghost use Rattle.std.specs.Prelude.{Result};
ghost use Rattle.upp_curve.specs.Curve.{SpecCurve};
ghost use Rattle.upp_limits.specs.declared.op_kind.OpFault.{OpFault};
ghost use Rattle.outcomes.specs.Calls.{Then};
ghost use Rattle.curve_call.specs.Determined.{AppliesIsDetermined, AreDetermined};
ghost use Rattle.curve_call.specs.Finite.{AnswersAreFinite};
ghost use Rattle.curve_call.specs.Growth.{AnswersGrow};

use upp_curve::Curve;
use upp_limits::OpFault;

/// Calls on a curve, with what they may answer, where that is determined.
pub trait Making {
    ghost answers: { SpecCurve → Result SpecCurve OpFault → Type 0 };

    /// Makes the calls.
    fn call(&self, c: &Curve) -> Result<Curve, OpFault>
        ensures { answers c.now result };

    ghost determined: { AreDetermined answers };
}

/// One call makes at most one curve, and its answers exclude each other.
pub fn answers_are_determined()
    ensures { AppliesIsDetermined }
{}

/// Where the answers of some calls are determined, and those of others, so are those of the ones and then the others.
pub fn calls_in_turn<P: Making, Q: Making>()
    ensures { AreDetermined (λ c. Then (P.answers c) Q.answers) }
{}

/// The answer of a call that makes a curve, but for a deconvolution and a shift by infinity, is finite at each time,
/// and so as a curve, where its operands are: of a minimum one of them, of a difference and of what first in, first
/// out leaves the first. A shift goes forward; a running supremum needs a bound up to each time.
pub fn answers_are_finite()
    ensures { AnswersAreFinite }
{}

/// The answer is finite, is 0 at 0, never falls and is nowhere below 0: of a sum, a minimum, a maximum or a convolution
/// where both operands do the same; of a multiple by a number from 0 on, or less such a number, where the first does.
/// The running bounds, and what first in, first out leaves after a wait from 0 on, ask for less.
pub fn answers_grow()
    ensures { AnswersGrow }
{}
