use fraction128::Frac;

/// Bits that come or are worked from a start to an end, at an even pace; where the end is the start, all at once.
#[derive(Clone, Copy)]
pub struct Span {
    pub start: Frac,
    pub end: Frac,
    pub bits: Frac,
}

/// A span, with the bits of the spans before it, those bits and its own, and its pace.
#[derive(Clone, Copy)]
pub struct Ramp {
    pub span: Span,
    pub before: Frac,
    pub after: Frac,
    pub pace: Frac,
}
