//! Where an edit changes a network, and what it replaces there, kept so that an undo can put it back.
//!
//! A law is the contract of a function that does nothing: its body is empty, and its `ensures` is proved.

mod replaced;
mod sites;

pub use replaced::{Replaced, no_network, put_back, replaced_by};
pub use sites::{edits_are_made_at_one_site, edits_have_one_site, edits_keep_other_rules, site_of};
