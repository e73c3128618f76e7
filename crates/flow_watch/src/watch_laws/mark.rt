use fraction128::Frac;

/// A time, with a number for pairs that start there and one for pairs that end there.
#[derive(Clone, Copy)]
pub struct Mark {
    pub time: Frac,
    pub start_key: Frac,
    pub end_key: Frac,
}

/// Which pairs of marks are looked for: the later at least `least` and less than `most` after the earlier, with an end
/// key that is less than the earlier's start key and `gap` together.
#[derive(Clone, Copy)]
pub struct Rule {
    pub least: Frac,
    pub most: Option<Frac>,
    pub gap: Frac,
}
