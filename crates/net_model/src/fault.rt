//! Why a file gives no network.

/// Why a curve is refused.
#[derive(Clone, Copy)]
pub enum CurveRefusal {
    /// A number is below 0.
    Negative,
    /// A period is not above 0, or a slot has no place in its cycle.
    ZeroPeriod,
    /// The curve falls somewhere, or its pieces are in no order.
    NotRising,
    /// A service curve jumps.
    NotContinuous,
    /// A service curve is not 0 at 0.
    NotZeroAtStart,
}

/// What is wrong with a file of a network.
#[derive(Clone, Copy)]
pub enum NetKind {
    /// It is no TOML in UTF-8.
    M1,
    /// A key is missing.
    M2,
    /// A key is unknown.
    M3,
    /// A value is of the wrong kind.
    M4,
    /// A number or a path entry is spelt in another form.
    M5,
    /// A value is out of range.
    M6,
    /// A name is taken.
    M7,
    /// A path names an unknown server.
    M8,
    /// A curve is refused.
    M9(CurveRefusal),
    /// A path has a server twice.
    M10,
    /// There are too many of something.
    M11,
    /// A quantum is below the longest packet of the flows in its queue.
    M12,
    /// A curve has too many pieces.
    CurveTooMany,
    /// A curve has too wide numbers.
    CurveTooWide,
    /// An allocation was refused.
    NoMemory,
}

/// What is wrong with a file, and where: keys and places from 0, as `server[0].service.latency`.
#[derive(Drop)]
pub struct NetFault {
    pub kind: NetKind,
    pub place: String,
}
