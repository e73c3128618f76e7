//! Cells by their kinds.

/// The cell of a kind, and of its two numbers.
macro_rules! cell {
    ($kind:ident, $a:expr, $b:expr) => {
        Cell {
            kind: Kind::$kind,
            a: $a,
            b: $b,
        }
    };
}

pub(crate) use cell;
