//! Statements and expressions of a script.

use crate::curve_script::keyword::{
    CurveOperator, NumberOperator, NumberPair, NumberTriple, OneAsked, PairOperator, TwoAsked,
};
use fraction128::Frac;

/// An expression, whose value is a curve, by its form. The fields stand in the order of the text. Times are in the file's
/// unit of time and values in bits, as in a network's file; what a kind or an operator refuses is looked for when the
/// script is evaluated, and not here. (The operators are those of Le Boudec and Thiran, chapter 3; their spelling is own
/// choice.)
#[derive(Drop)]
pub enum Expr {
    /// The curve of an earlier `let`: `NAME`.
    Name(String),
    /// The curve that is 0 everywhere: `zero`.
    Zero,
    /// A curve that two numbers give: `bucket(12000, 10)`.
    OfPair(NumberPair, Frac, Frac),
    /// A curve that three numbers give: `stair(1, 2, 0)`.
    OfTriple(NumberTriple, Frac, Frac, Frac),
    /// An operator on one curve: `close(E)`.
    OnCurve(CurveOperator, Box<Expr>),
    /// An operator on a curve and a number: `scale(E, 1/2)`.
    OnNumber(NumberOperator, Box<Expr>, Frac),
    /// An operator on two curves: `conv(E, E)`.
    OnTwo(PairOperator, Box<Expr>, Box<Expr>),
}

/// A statement: a name for a curve, or a question.
#[derive(Drop)]
pub enum Stat {
    /// Gives a name to a curve: `let NAME = E`.
    Let(String, Expr),
    /// Asks for the value at a time: `value E at 150`.
    Value(Expr, Frac),
    /// Asks a question about one curve: `rate E`.
    AskOne(OneAsked, Expr),
    /// Asks a question about two curves: `delay E, E`.
    AskTwo(TwoAsked, Expr, Expr),
}

/// A statement with the number of its line. Lines are counted from 1, skipped ones too.
#[derive(Drop)]
pub struct ScriptLine {
    pub number: u32,
    pub stat: Stat,
}

/// The statements of a script, in order: at most 256, and in each parentheses nest at most 64 deep.
#[derive(Drop)]
pub struct Script {
    pub lines: Vec<ScriptLine>,
}
