//! The laws. Each is the contract of a function that does nothing.

ghost use Rattle.existence.specs.drafts.Drafts.{DraftsExist, FoldsExist, DraftsHaveNetworks};

/// What the bytes of a file say whose tables break no rule is a draft, as `read_draft` gives it where there is memory: each
/// text of a curve has a curve within the limits, or is over one.
pub fn drafts_exist()
    ensures { DraftsExist }
{}

/// The folds of the closures that such a file asks for have a number of operators: so the bounds of the steps that
/// reading takes are bounds.
pub fn folds_exist()
    ensures { FoldsExist }
{}

/// A network can be built of what such a file says, which is accepted, or one of its curves, or the fold of a closure, is
/// the first over a limit.
pub fn drafts_have_networks()
    ensures { DraftsHaveNetworks }
{}
