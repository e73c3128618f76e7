//! Laws of the replies. Each is the contract of a function that does nothing.

ghost use Rattle.netcalc_cli.specs.Laws.{RepliesAreDetermined, CallsAreDetermined};

/// Status and bytes are determined by a command and by what its files hold, at each status: of several cycles one is told.
pub fn replies_are_determined()
    ensures { RepliesAreDetermined }
{}

/// So two calls of one command, where it is told what its files hold, that each end with another status than 3, 4 and 5
/// end with one status, and put the same bytes.
pub fn calls_are_determined()
    ensures { CallsAreDetermined }
{}
