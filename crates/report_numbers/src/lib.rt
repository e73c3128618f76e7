//! That the bytes of a report tell its numbers. These are laws; the program does not use them.
#![tactic(auto)]

ghost use Rattle.report_numbers.specs.Laws.{ReportsTellNumbers, EditReportsTellNumbers, RunReportsTellBounds};
ghost use Rattle.report_numbers.specs.Laws.{CheckReportsTellBounds};

/// Two tables with one report of a network, in lines or as JSON, agree at each printed cell at which the first has a
/// number whose parts have at most 127 bits, as each has that is printed.
pub fn reports_tell_numbers()
    ensures { ReportsTellNumbers }
{}

/// So do two tables with one report on edits, in either form, with the same said of each edit.
pub fn edit_reports_tell_numbers()
    ensures { EditReportsTellNumbers }
{}

/// Two tables with one report of `simulate`, whatever was found in its run, agree at each bound of a flow's delay and of a
/// queue's backlog, which are all the numbers of a table that it prints.
pub fn run_reports_tell_bounds()
    ensures { RunReportsTellBounds }
{}

/// So do two with one report of `check` on a lawful run.
pub fn check_reports_tell_bounds()
    ensures { CheckReportsTellBounds }
{}
