//! What a queue is served, as a rate with a debt: where the server's curve is at least such a rate, and what others
//! bring is at most a line.

ghost use Rattle.residual_laws.specs.lines.LineLaws.{FifoLineServes, PriorityLineServes, DrrLineServes, RestLineServes};
ghost use Rattle.residual_laws.specs.lines.RateDebt.{RateDebtRises, RateDebtsCompare, LinesCompare};

/// The queue of a first in, first out server is served by each rate with a debt that the server's curve is nowhere
/// below.
pub fn fifo_line_serves()
    ensures { FifoLineServes }
{}

/// A queue of a priority server is served by the rate that the queues before it leave, with their burst and one packet
/// of the queues after it as further debt.
pub fn priority_line_serves()
    ensures { PriorityLineServes }
{}

/// A queue of a deficit round robin server is served by its share of the rate, with its share of the debt and what is
/// owed.
pub fn drr_line_serves()
    ensures { DrrLineServes }
{}

/// A class of packets, as a queue, is served by the rate that all others leave, with their burst as further debt,
/// whatever the server's discipline.
pub fn rest_line_serves()
    ensures { RestLineServes }
{}

/// A rate with a debt never falls, where the rate is from 0 on; a lesser rate with a greater debt gives no more; a
/// line of a lesser burst and a lesser rate brings no more.
pub fn rate_debts()
    ensures rises { RateDebtRises }
    ensures compare { RateDebtsCompare }
    ensures lines { LinesCompare }
{}
