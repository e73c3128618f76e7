//! That what the reading of a network's file speaks of is there: a draft of each file whose tables break no rule, the number
//! of operators of the folds of its closures, and a network of the draft or a first curve over a limit.

mod laws;

pub use laws::{drafts_exist, drafts_have_networks, folds_exist};
