use fraction128::Frac;

/// A time, and the work done up to it.
#[derive(Clone, Copy)]
pub struct Point {
    pub time: Frac,
    pub work: Frac,
}

/// A curve from `start` on and before `end`: the value at the start, and the slope.
#[derive(Clone, Copy)]
pub struct Segment {
    pub start: Frac,
    pub end: Option<Frac>,
    pub value: Frac,
    pub slope: Frac,
}
