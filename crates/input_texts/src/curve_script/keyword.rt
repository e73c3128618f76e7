//! The words that statements and expressions are spelt with.

ghost use Rattle.std.specs.Prelude.{◌≡◌, find};
ghost use Rattle.std.specs.Str.{bytes_eq};
ghost use Rattle.input_texts.specs.curve_script.Keywords.{spelling, keyword_of};

/// A question about one curve.
#[derive(Clone, Copy)]
pub enum OneAsked {
    /// The long-run rate: `rate E`.
    Rate,
    /// The pieces and the tail: `show E`.
    Show,
}

/// A question about two curves.
#[derive(Clone, Copy)]
pub enum TwoAsked {
    /// The horizontal deviation of an arrival curve and a service curve: `delay E, E`.
    Delay,
    /// The vertical deviation of an arrival curve and a service curve: `backlog E, E`.
    Backlog,
    /// Whether two curves have one value at each time: `equal E, E`.
    Equal,
    /// Whether the first curve is nowhere above the second: `below E, E`.
    Below,
}

/// A curve that two numbers give.
#[derive(Clone, Copy)]
pub enum NumberPair {
    /// A token bucket, by its burst and its rate: `bucket(12000, 10)`.
    Bucket,
    /// A rate after a latency, by the rate and the latency: `latency(100, 10)`.
    Latency,
}

/// A curve that three numbers give.
#[derive(Clone, Copy)]
pub enum NumberTriple {
    /// Packets one by one, by a packet's bits, the period and the jitter: `stair(1, 2, 0)`.
    Stair,
    /// A gate, by the rate, the cycle and the slot: `gate(100, 10, 2)`.
    Gate,
}

/// An operator on one curve.
#[derive(Clone, Copy)]
pub enum CurveOperator {
    /// The subadditive closure: `close(E)`.
    Close,
    /// The running supremum: `runsup(E)`.
    RunSup,
    /// The running infimum: `runinf(E)`.
    RunInf,
}

/// An operator on a curve and a number.
#[derive(Clone, Copy)]
pub enum NumberOperator {
    /// The curve less a number, and 0 where that is below 0: `posminus(E, 12000)`.
    PosMinus,
    /// The curve times a number: `scale(E, 1/2)`.
    Scale,
    /// The curve as it is a time later: `shift(E, 10)`.
    Shift,
}

/// An operator on two curves.
#[derive(Clone, Copy)]
pub enum PairOperator {
    /// The sum of two curves: `sum(E, E)`.
    Sum,
    /// The lesser of two curves at each time: `min(E, E)`.
    Min,
    /// The greater of two curves at each time: `max(E, E)`.
    Max,
    /// The min-plus convolution: `conv(E, E)`.
    Conv,
    /// The first less the second, and 0 where that is below 0: `posdiff(E, E)`.
    PosDiff,
    /// The min-plus deconvolution: `deconv(E, E)`.
    Deconv,
}

/// A word that is no name.
#[derive(Clone, Copy)]
pub(crate) enum Keyword {
    Let,
    At,
    Value,
    AskOne(OneAsked),
    AskTwo(TwoAsked),
    Zero,
    TwoNumbers(NumberPair),
    ThreeNumbers(NumberTriple),
    OneCurve(CurveOperator),
    CurveAndNumber(NumberOperator),
    TwoCurves(PairOperator),
}

// Each of them, once.
const KEYWORDS: [Keyword; 26] = [
    Keyword::Let,
    Keyword::At,
    Keyword::Value,
    Keyword::AskOne(OneAsked::Rate),
    Keyword::AskOne(OneAsked::Show),
    Keyword::AskTwo(TwoAsked::Delay),
    Keyword::AskTwo(TwoAsked::Backlog),
    Keyword::AskTwo(TwoAsked::Equal),
    Keyword::AskTwo(TwoAsked::Below),
    Keyword::Zero,
    Keyword::TwoNumbers(NumberPair::Bucket),
    Keyword::TwoNumbers(NumberPair::Latency),
    Keyword::ThreeNumbers(NumberTriple::Stair),
    Keyword::ThreeNumbers(NumberTriple::Gate),
    Keyword::OneCurve(CurveOperator::Close),
    Keyword::OneCurve(CurveOperator::RunSup),
    Keyword::OneCurve(CurveOperator::RunInf),
    Keyword::CurveAndNumber(NumberOperator::PosMinus),
    Keyword::CurveAndNumber(NumberOperator::Scale),
    Keyword::CurveAndNumber(NumberOperator::Shift),
    Keyword::TwoCurves(PairOperator::Sum),
    Keyword::TwoCurves(PairOperator::Min),
    Keyword::TwoCurves(PairOperator::Max),
    Keyword::TwoCurves(PairOperator::Conv),
    Keyword::TwoCurves(PairOperator::PosDiff),
    Keyword::TwoCurves(PairOperator::Deconv),
];

impl Keyword {
    #[tactic(auto, unfolding(crate::specs::curve_script::Keywords::spelling))]
    fn spelling(self) -> &'static str
        ensures { result.now ≡ spelling self }
    {
        match self {
            Keyword::Let => "let",
            Keyword::At => "at",
            Keyword::Value => "value",
            Keyword::AskOne(OneAsked::Rate) => "rate",
            Keyword::AskOne(OneAsked::Show) => "show",
            Keyword::AskTwo(TwoAsked::Delay) => "delay",
            Keyword::AskTwo(TwoAsked::Backlog) => "backlog",
            Keyword::AskTwo(TwoAsked::Equal) => "equal",
            Keyword::AskTwo(TwoAsked::Below) => "below",
            Keyword::Zero => "zero",
            Keyword::TwoNumbers(NumberPair::Bucket) => "bucket",
            Keyword::TwoNumbers(NumberPair::Latency) => "latency",
            Keyword::ThreeNumbers(NumberTriple::Stair) => "stair",
            Keyword::ThreeNumbers(NumberTriple::Gate) => "gate",
            Keyword::OneCurve(CurveOperator::Close) => "close",
            Keyword::OneCurve(CurveOperator::RunSup) => "runsup",
            Keyword::OneCurve(CurveOperator::RunInf) => "runinf",
            Keyword::CurveAndNumber(NumberOperator::PosMinus) => "posminus",
            Keyword::CurveAndNumber(NumberOperator::Scale) => "scale",
            Keyword::CurveAndNumber(NumberOperator::Shift) => "shift",
            Keyword::TwoCurves(PairOperator::Sum) => "sum",
            Keyword::TwoCurves(PairOperator::Min) => "min",
            Keyword::TwoCurves(PairOperator::Max) => "max",
            Keyword::TwoCurves(PairOperator::Conv) => "conv",
            Keyword::TwoCurves(PairOperator::PosDiff) => "posdiff",
            Keyword::TwoCurves(PairOperator::Deconv) => "deconv",
        }
    }
}

/// The keyword that a word is.
#[tactic(auto, unfolding(crate::specs::curve_script::Keywords::keyword_of))]
pub(crate) fn keyword_of(word: &[u8]) -> Option<Keyword>
    ensures { result ≡ keyword_of word.now }
{
    KEYWORDS
        .iter()
        .copied()
        .find(|k| k.spelling().as_bytes() == word)
}
