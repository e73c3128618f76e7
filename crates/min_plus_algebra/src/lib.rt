//! Min-plus algebra under one name: numbers, curves, and all operators on curves. Nothing is made here; each item is proved in its own crate.
#![tactic(auto)]

// Numbers, and infinity; the counter of operators.
pub use fraction128::{Ext, Frac, FracFault, FracText, Wide};
pub use outcomes::Steps;
pub use rational::Extended;

// Curves: of the kinds of a network's file, of listed pieces, and of any pieces in normal form.
pub use curve_library::{
    CurveFault, PieceText, TailText, UseAs, bucket, gate, listed, rate_latency, stair,
};
pub use upp_curve::affine_segment::{Line, Piece};
pub use upp_curve::{Curve, Tail, equal, is_continuous};
pub use upp_limits::{OpFault, OpKind, OverLimit};
pub use upp_normal::{RawCurve, normalise};

// Operators.
pub use curve_conv::convolve;
pub use curve_deconv::deconvolve;
pub use curve_deviation::{horizontal, vertical};
pub use plain_operators::pointwise::{max, min, pos_diff, pos_minus, scale, shift, sum};
pub use plain_operators::running::{fifo_left, run_inf, run_sup};
pub use subadd_closure::{close, is_subadditive};
