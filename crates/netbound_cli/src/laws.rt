//! What holds of the replies. Each law is the contract of a function that does nothing.

ghost use Rattle.netbound_cli.specs.Laws.{RepliesAreDetermined};

/// Status and text are determined by a call and by what its files hold.
pub fn replies_are_determined()
    ensures { RepliesAreDetermined }
{}
