//! One queue, as it is known after some steps of a run.

ghost use Rattle.std.specs.Prelude.{◌≡◌, ◌+◌, ◌<◌, ◌≤◌, ◌^◌};
ghost use Rattle.rational.specs.Rational.{le_q};
ghost use Rattle.simulator.specs.run_measures.Gauges.{Gains, Loses, counted, empty_gauge};

use fraction128::{Frac, is_less};

/// One queue, as it is known after some steps of a run.
#[derive(Clone, Copy)]
pub(crate) struct Gauge {
    /// The bits of the packets that are there.
    pub(crate) present: u64,
    /// The bits of the last packet that left, and when that was. It is still there at that time.
    pub(crate) left: u32,
    pub(crate) left_at: Frac,
    /// The most bits that were there at one time.
    pub(crate) peak: u64,
}

/// The bits that are there at a time that is not before the last step.
fn level(present: u64, left: u32, left_at: Frac, time: Frac) -> u64
    requires { present + left < 2 ^ 64 }
    ensures { result ≡ present + counted (le_q time left_at) left }
{
    if is_less(left_at, time) {
        return present;
    }
    present + u64::from(left)
}

impl Gauge {
    /// That of a queue in which no packet has been.
    pub(crate) fn empty() -> Gauge
        ensures { result ≡ empty_gauge }
    {
        Gauge {
            present: 0,
            left: 0,
            left_at: Frac::zero(),
            peak: 0,
        }
    }

    /// A packet arrives.
    pub(crate) fn gained(self, bits: u32, time: Frac) -> Gauge
        requires { self.present + bits + self.left < 2 ^ 64 }
        ensures { Gains self result bits time }
    {
        let Gauge {
            present,
            left,
            left_at,
            peak,
        } = self;
        let present = present + u64::from(bits);
        let level = level(present, left, left_at, time);
        let peak = if level > peak { level } else { peak };
        Gauge {
            present,
            left,
            left_at,
            peak,
        }
    }

    /// A packet leaves.
    pub(crate) fn lost(self, bits: u32, time: Frac) -> Gauge
        requires { bits ≤ self.present }
        ensures { Loses self result bits time }
    {
        Gauge {
            present: self.present - u64::from(bits),
            left: bits,
            left_at: time,
            peak: self.peak,
        }
    }
}
