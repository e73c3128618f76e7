//! The laws. Each is the contract of a function that does nothing.

ghost use Rattle.net_model.specs.Orders.{IsOrder};
ghost use Rattle.net_cells.specs.Meanings.{CellTable};
ghost use Rattle.net_cells.specs.Equations.{MeetsEquations};
ghost use Rattle.existence.specs.tables.Tables.{TableOrLimit};
ghost use Rattle.existence.specs.tables.Networks.{NoneIsOver};
ghost use Rattle.existence.specs.reports.Laws.{FilesHaveReports, FilesHaveReplies, FirstStagesEnd, MeasuresHaveReplies};

use command_replies::run_findings::keeps_curves;
use net_model::Network;

/// A network whose servers have an order has a table whose cells are all answered, or a cell that is the first over a
/// limit; with no cell over a limit it has a table that meets its equations. The type of a network says by itself that
/// it is accepted and that its curves are in normal form and readable.
pub fn has_table(net: &Network, order: &[u32])
    requires { IsOrder net.now order.now }
    ensures answered { TableOrLimit net.now order.now }
    ensures meets { NoneIsOver net.now order.now → (at : CellTable) × MeetsEquations net.now at }
{
    net.keeps();
    keeps_curves(net);
}

/// Bytes that give a network whose servers have an order, with no cell over a limit, have a report as the clause of
/// status 0 says: with the numbers of a table that meets the equations and that every run keeps.
pub fn files_have_reports()
    ensures { FilesHaveReports }
{}

/// Each file has a reply of `analyse` that is no want of memory: the first rule that its tables break, the first curve over
/// a limit, its network's cycle, the first cell over a limit, or the report.
pub fn files_have_replies()
    ensures { FilesHaveReplies }
{}

/// The first stage of each command that reads a network ends, whatever the bytes are: they give a network, or there is the
/// reply that tells the first rule that they break or the first curve over a limit.
pub fn first_stages_end()
    ensures { FirstStagesEnd }
{}

/// Any files have a reply of `measure` that is no want of memory, whatever the name is: the rate is from 0 on, as the
/// words of a command say.
pub fn measures_have_replies()
    ensures { MeasuresHaveReplies }
{}
