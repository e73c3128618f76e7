//! Laws of workloads. Each is the contract of a function that does nothing.

ghost use Rattle.exercise_load.specs.WorkloadLaws.{WorkloadsStand, CurvesAreWithinLimits, TracesHoldWhatIsSent};

/// Each workload has a network that keeps what every network keeps and over which no walk comes back, and a trace of it
/// that keeps what every trace keeps.
pub fn workloads_stand()
    ensures { WorkloadsStand }
{}

/// The curves of each workload are within the limits of a curve by itself.
pub fn curves_are_within_limits()
    ensures { CurvesAreWithinLimits }
{}

/// The trace of a workload holds each packet that its flows send before 1,024,000, one packet each period from 0 on, and
/// no other, by time and at one time by the numbers of the flows.
pub fn traces_hold_what_is_sent()
    ensures { TracesHoldWhatIsSent }
{}
