//! Laws of the report. Each is the contract of a function that does nothing.

ghost use Rattle.run_check.specs.check_report.CheckLaws.{EquationsGiveOneCheckReport};

/// There is one report on what is found in a lawful run of a network that has an order, whatever table meets its
/// equations.
pub fn equations_give_one_check_report()
    ensures { EquationsGiveOneCheckReport }
{}
