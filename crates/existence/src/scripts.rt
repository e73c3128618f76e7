//! That each script has a reply.

mod laws;

pub use laws::scripts_have_replies;
