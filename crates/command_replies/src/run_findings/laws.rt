//! Laws of what is found in a lawful run. Each is the contract of a function that does nothing.

ghost use Rattle.command_replies.specs.run_findings.FindingLaws.{FindingsAreOne, FindingsTellPremises, QuietFindingsAreWithinBounds};

/// What is found in a lawful run is determined.
pub fn findings_are_one()
    ensures { FindingsAreOne }
{}

/// The status of a reply that tells what is found in a lawful run is 0 exactly where the run keeps packet sizes,
/// arrival curves and service curves, and 9 exactly where it does not.
pub fn findings_tell_premises()
    ensures { FindingsTellPremises }
{}

/// Where a lawful run keeps them, no worst delay that is found is above its flow's bound, and no peak above its queue's
/// backlog, in whatever table meets the network's equations.
pub fn quiet_findings_are_within_bounds()
    ensures { QuietFindingsAreWithinBounds }
{}
