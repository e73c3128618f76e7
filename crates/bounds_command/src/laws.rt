//! What holds of the replies on two tables. Each law is the contract of a function that does nothing.

ghost use Rattle.bounds_command.specs.Laws.{RepliesAreComplete, RepliesAreDetermined, ReportsTellBounds, StatusesHaveCauses};
ghost use Rattle.bounds_command.specs.Laws.{TablesAreDetermined};

/// Two replies on the same files, with one overhead and in one form, are one.
pub fn replies_are_determined()
    ensures { RepliesAreDetermined }
{}

/// Tables without a fault, whose links go round nowhere, have no other reply than a report.
pub fn replies_are_complete()
    ensures { RepliesAreComplete }
{}

/// The status of a reply tells its cause: 0 a report by which no branch misses its deadline; 9 one by which some branch
/// does; 1 the first fault of the tables; 8 a ring of ports. No reply has another one.
pub fn statuses_have_causes()
    ensures { StatusesHaveCauses }
{}

/// There is one table at most that meets the equations of a network, in its rows and in its bounds.
pub fn tables_are_determined()
    ensures { TablesAreDetermined }
{}

/// Each delay and each bound of a report is printed as a number that, read as the cells of tables are, is the one that is
/// promised: at least that of the table, and less than a thousandth of a microsecond above it.
pub fn reports_tell_bounds()
    ensures { ReportsTellBounds }
{}
