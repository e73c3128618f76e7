//! The calculator of curve expressions: what the statements of a script answer.
#![tactic(auto)]

mod answer;
mod expressions;
mod kinds;
mod laws;
mod naming;
mod operators;
mod questions;
mod script;
mod sharing;
mod text;
mod values;

pub use answer::{Answer, Word};
pub use input_texts::curve_script::{
    Expr, LangFault, LangKind, Script, ScriptLine, Stat, parse_script,
};
pub use laws::{answers_are_meant, found_is_meant, scripts_find_one};
pub use script::eval_script;
pub use text::answer_text;
