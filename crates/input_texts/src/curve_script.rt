//! Scripts of the curve calculator: the grammar of a line, and the parser.

mod building;
mod fault;
mod keyword;
mod laws;
mod line;
mod parsing;
mod script;
mod shape;
mod stating;
mod token;
mod tokens;

pub use fault::{LangFault, LangKind};
pub use keyword::{
    CurveOperator, NumberOperator, NumberPair, NumberTriple, OneAsked, PairOperator, TwoAsked,
};
pub use laws::{faults_exclude_scripts, scripts_are_one};
pub use parsing::parse_script;
pub use script::{Expr, Script, ScriptLine, Stat};
pub use token::Sign;
