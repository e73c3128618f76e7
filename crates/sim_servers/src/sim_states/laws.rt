//! Laws of the simulator's state. A law is the contract of a function that does nothing.

ghost use Rattle.sim_servers.specs.sim_states.Laws.{NothingIsLeft, FirstIsNext, EntriesKeep, ArrivalsKeep, WorkKeeps, VisitsKeep, DeparturesKeep, LastDeparturesKeep, EntriesMayBeTaken, ArrivalsMayBeTaken};

/// Where the simulator takes nothing for due, no step is due: the stated run has come to its end.
pub fn nothing_is_left()
    ensures { NothingIsLeft }
{}

/// A step that is due at the time and the place of the first of what the simulator takes for due is the next of the
/// stated run.
pub fn first_is_next()
    ensures { FirstIsNext }
{}

/// A packet that enters, and is taken by its first server's station, keeps the state.
pub fn entries_keep_the_state()
    ensures { EntriesKeep }
{}

/// A packet that reaches a server, and is taken off its link, keeps it.
pub fn arrivals_keep_the_state()
    ensures { ArrivalsKeep }
{}

/// Work keeps it.
pub fn work_keeps_the_state()
    ensures { WorkKeeps }
{}

/// A visit keeps it.
pub fn visits_keep_the_state()
    ensures { VisitsKeep }
{}

/// A packet that leaves for another server, and is put at the tail of its link, keeps it.
pub fn departures_keep_the_state()
    ensures { DeparturesKeep }
{}

/// A packet that leaves its last server keeps it.
pub fn last_departures_keep_the_state()
    ensures { LastDeparturesKeep }
{}

/// A packet that enters next may be taken by the station of its flow's first server.
pub fn entries_may_be_taken()
    ensures { EntriesMayBeTaken }
{}

/// A packet that reaches a server next may be taken by its station.
pub fn arrivals_may_be_taken()
    ensures { ArrivalsMayBeTaken }
{}
