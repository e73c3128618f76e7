//! The first layer of the reader of networks: from the bytes of a file to its servers and flows, with the texts of
//! their curves and what was made of them, or to the first fault and its place.
#![tactic(auto)]

mod arrivals;
mod curve_draft;
mod curve_text;
mod disciplines;
mod draft;
mod fault;
mod flow_draft;
mod flows;
mod hop;
mod hops;
mod keys;
mod laws;
mod limits;
mod making;
mod names;
mod pieces;
mod places;
mod quanta;
mod reading;
mod server_draft;
mod server_list;
mod servers;
mod services;
mod tree;
mod values;
mod words;

pub use curve_draft::CurveDraft;
pub use curve_text::CurveText;
pub use draft::Draft;
pub use fault::DraftFault;
pub use flow_draft::FlowDraft;
pub use hop::Hop;
pub use laws::{
    faults_are_of_tables, keys_ascend, made_may_stand, refusals_are_causes, unknown_key_is_least,
};
pub use places::{nth, under};
pub use reading::read_draft;
pub use server_draft::ServerDraft;
