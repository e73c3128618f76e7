//! The laws. Each is the contract of a function that does nothing.

ghost use Rattle.existence.specs.texts.Laws.{TracesAreRead, TracesStand, TraceStagesEnd, EditsAreRead, ListStagesEnd};
ghost use Rattle.existence.specs.texts.Laws.{RunsAreRead, RunStagesEnd, ScriptsAreRead};

/// A text is a trace of a network, or has a first fault.
pub fn traces_are_read()
    ensures { TracesAreRead }
{}

/// What rows give as a trace of a network keeps what every trace keeps, and its numbers are those of live flows and of
/// servers: so in an accepted network whose flows go in no ring it has a stated run.
pub fn traces_stand()
    ensures { TracesStand }
{}

/// The stage of `simulate` that reads the trace ends: there is the reply that tells the first fault of the text, or it gives
/// a trace.
pub fn trace_stages_end()
    ensures { TraceStagesEnd }
{}

/// A text is a list of edits, or has a first fault.
pub fn edits_are_read()
    ensures { EditsAreRead }
{}

/// The stage of `edit` that reads the list ends: there is the reply that tells the first fault of the text, or the edits
/// that it asks for.
pub fn list_stages_end()
    ensures { ListStagesEnd }
{}

/// A text gives a run of a network, or has a first fault.
pub fn runs_are_read()
    ensures { RunsAreRead }
{}

/// The stage of `check` that reads the run ends: there is the reply that tells the first fault of the text, or it gives a
/// run.
pub fn run_stages_end()
    ensures { RunStagesEnd }
{}

/// A text is a script of curve expressions, or has a first fault.
pub fn scripts_are_read()
    ensures { ScriptsAreRead }
{}
