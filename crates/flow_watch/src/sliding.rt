//! How many packets bring at most so many bits in each window that is shorter than a time: one pass, with a window that slides.

ghost use Rattle.std.specs.Prelude.{◌≡◌, ◌<◌, ◌≤◌, length};
ghost use Rattle.flow_watch.specs.Flows.{TimesRiseIn, KeepsBefore, IsNarrow};

use crate::step_lines::whole_of;
use crate::watch_laws::Entering;
use fraction128::{Frac, is_less};

/// Packets up to one that is looked at: the number of the first of them, and the bits of all.
#[derive(Clone, Copy)]
struct Slide {
    first: usize,
    bits: u128,
}

/// Leaves out the packets that are seen to enter `end` or more before the last one.
fn narrowed(entries: &[Entering], wide: &Slide, last: usize, end: Frac) -> Slide
    requires in_range { last < length entries.now }
    requires wide { IsNarrow end entries.now last wide.now.first wide.now.bits }
    ensures fewer { result.bits ≤ wide.now.bits }
    ensures narrow { IsNarrow end entries.now last result.first result.bits }
{
    let time = entries[last].time;
    let mut first = wide.first;
    let mut bits = wide.bits;
    while first < last {
        let gone = entries[first];
        let Ok(gap) = Frac::sub(time, gone.time) else {
            return Slide { first, bits };
        };
        if is_less(gap, end) {
            return Slide { first, bits };
        }
        bits -= gone.bits as u128;
        first += 1;
    }
    Slide { first, bits }
}

/// How many of the first packets are seen to bring at most a value in each window that is shorter than `end`.
pub(crate) fn before_upto(entries: &[Entering], value: Frac, end: Frac) -> usize
    requires { TimesRiseIn entries.now }
    ensures in_range { result ≤ length entries.now }
    ensures keeps { KeepsBefore value end entries.now result }
{
    let mut slide = Slide { first: 0, bits: 0 };
    for (number, entering) in entries.iter().enumerate() {
        let wide = Slide {
            first: slide.first,
            bits: slide.bits + entering.bits as u128,
        };
        slide = narrowed(entries, &wide, number, end);
        if is_less(value, whole_of(slide.bits)) {
            return number;
        }
    }
    entries.len()
}
