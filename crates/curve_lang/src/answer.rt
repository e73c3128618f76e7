//! Answers of a script.

use fraction128::Ext;
use std::rc::Rc;
use upp_curve::Curve;

/// Which question an answer belongs to.
#[derive(Clone, Copy)]
pub enum Word {
    Value,
    Rate,
    Delay,
    Backlog,
    Equal,
    Below,
}

/// The answer of a question: a number, a truth, or a curve to be shown.
#[derive(Drop)]
pub enum Answer {
    Number { word: Word, value: Ext },
    Truth { word: Word, holds: bool },
    Shown(Rc<Curve>),
}
