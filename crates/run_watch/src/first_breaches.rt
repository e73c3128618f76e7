//! What a run of a network breaks first: a packet that is too long, too many bits between two packets of a flow, or too
//! little work of a server. The run may be simulated or recorded.

mod counts;
mod first;
mod flows;
mod services;

pub use first::first_breach;
