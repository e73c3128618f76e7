//! The kinds of calls on curves, the window of times that such a call looks at, and why one is refused.

ghost use Rattle.std.specs.Prelude.{◌≡◌};
ghost use Rattle.upp_limits.specs.Gauges.{tallied, operands_of};

use fraction128::{Ext, Frac};
use std::alloc::AllocError;

/// What a call computes of its operands f and g. A kind with one operand does not look at g.
#[derive(Debug, Clone, Copy)]
pub enum OpKind {
    /// The sum of both.
    Sum,
    /// The lesser of both.
    Min,
    /// The greater of both.
    Max,
    /// The greater of 0 and f less g.
    PosDiff,
    /// The greater of 0 and f less this number; g is not looked at.
    PosMinus(Frac),
    /// This number times f; g is not looked at.
    Scale(Frac),
    /// f as it is this much later; g is not looked at.
    Shift(Ext),
    /// The supremum of f up to each time; g is not looked at.
    RunSup,
    /// The infimum of f from each time on; g is not looked at.
    RunInf,
    /// What f leaves when g, moved right by this much, is served first.
    FifoLeft(Ext),
    /// The infimum of f + g over the two parts of each time.
    Convolve,
    /// The supremum of f less g over all times by which f is ahead.
    Deconvolve,
    /// How much later g reaches the values of f.
    Horizontal,
    /// How far f is above g.
    Vertical,
    /// The curve f by itself; g is not looked at.
    Itself,
}

/// The end of the times that a call looks at; none where it is no `Frac`, or where there is no such end.
pub type Window = Option<Frac>;

/// Why a call on curves has no answer.
#[derive(Debug, Drop)]
pub enum OpFault {
    /// The gauge is below 2^120, and the tally above 2^20.
    TooMany,
    /// The gauge is 2^120 or more.
    TooWide,
    /// An allocation was refused.
    NoMemory,
}

impl From<AllocError> for OpFault {
    ghost use Rattle.std.specs.Prelude.{◌≡◌};
    ghost use Rattle.upp_limits.specs.declared.op_kind.OpFault.TheVariants.{NoMemory};

    ghost from_gives = { λ _ e. e ≡ NoMemory };

    fn from(_e: AllocError) -> OpFault {
        OpFault::NoMemory
    }
}

/// Of which unrolled pieces the tally of a kind is made.
#[derive(Clone, Copy)]
pub(crate) enum Tallied {
    /// Those of f.
    FirstAlone,
    /// Those of f, and one.
    FirstAndOne,
    /// Those of f and those of g.
    SumOfBoth,
    /// The pairs of one of f and one of g.
    ProductOfBoth,
}

/// Whose pieces count in the gauge of a kind.
#[derive(Debug, Clone, Copy)]
pub enum Operands {
    /// Those of f.
    First,
    /// Those of f and of g.
    Both,
    /// Those of f and of f times this number.
    FirstScaled(Frac),
}

impl OpKind {
    /// Of which pieces the tally is made.
    pub(crate) fn tallied(&self) -> Tallied
        ensures { result ≡ tallied self.now }
    {
        match self {
            OpKind::Sum | OpKind::Min | OpKind::Max | OpKind::PosDiff => Tallied::SumOfBoth,
            OpKind::FifoLeft(_) | OpKind::Horizontal | OpKind::Vertical => Tallied::SumOfBoth,
            OpKind::Convolve | OpKind::Deconvolve => Tallied::ProductOfBoth,
            OpKind::PosMinus(_) => Tallied::FirstAndOne,
            OpKind::Scale(_) | OpKind::Shift(_) => Tallied::FirstAlone,
            OpKind::RunSup | OpKind::RunInf | OpKind::Itself => Tallied::FirstAlone,
        }
    }

    /// Whose pieces count in the gauge.
    pub(crate) fn operands(&self) -> Operands
        ensures { result ≡ operands_of self.now }
    {
        match self {
            OpKind::Sum | OpKind::Min | OpKind::Max | OpKind::PosDiff => Operands::Both,
            OpKind::FifoLeft(_) | OpKind::Horizontal | OpKind::Vertical => Operands::Both,
            OpKind::Convolve | OpKind::Deconvolve => Operands::Both,
            OpKind::Scale(factor) => Operands::FirstScaled(*factor),
            OpKind::PosMinus(_) | OpKind::Shift(_) => Operands::First,
            OpKind::RunSup | OpKind::RunInf | OpKind::Itself => Operands::First,
        }
    }
}
