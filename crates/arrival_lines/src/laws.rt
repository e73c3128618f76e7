//! Laws: lines above stairs and below gates, and that a queue's numbers are one.

ghost use Rattle.arrival_lines.specs.Links.{StairBelowLine};
ghost use Rattle.arrival_lines.specs.Queues.{BoundsAreOne};
ghost use Rattle.arrival_lines.specs.Services.{GateAboveLine};

/// A stair is nowhere above its line.
pub fn stair_below_line()
    ensures { StairBelowLine }
{}

/// A gate is nowhere below its line.
pub fn gate_above_line()
    ensures { GateAboveLine }
{}

/// A queue has one least delay and one least backlog, by the values of its parts and services alone.
pub fn bounds_are_one()
    ensures { BoundsAreOne }
{}
