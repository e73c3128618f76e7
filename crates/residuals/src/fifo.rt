//! The service of one flow of a first in, first out queue: what the other flows of the queue leave.

ghost use Rattle.residuals.specs.fifo.Laws.{FifoServes};
ghost use Rattle.residuals.specs.fifo.Curves.{FifoCurveServes};
ghost use Rattle.residuals.specs.fifo.Growth.{FifoServiceGrows, FifoCurveGrows};

mod service;

pub use service::fifo_service;

/// A flow of a queue is served by what the others leave, for any theta from 0 on.
pub fn fifo_serves()
    ensures { FifoServes }
{}

/// The curve that `fifo_service` answers serves the flow, in every lawful view.
pub fn fifo_curve_serves()
    ensures { FifoCurveServes }
{}

/// What first in, first out leaves of a finite service is finite, is 0 at 0, never falls and is nowhere below 0,
/// whatever the others' curve, and for any theta from 0 on; and so is the curve that `fifo_service` answers.
pub fn fifo_service_grows()
    ensures service { FifoServiceGrows }
    ensures curve { FifoCurveGrows }
{}
