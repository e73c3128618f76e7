//! The counter of operators, of which only proofs read.

ghost use Rattle.std.specs.Prelude.{◌≡◌, ◌<◌};

use outcomes::Steps;
use std::marker::Brand;
use std::sync::ledger::{Blank, Ledger};

/// Counts two steps with a counter of its own, and gives the bytes that the counter takes.
fn count_two<L: Ledger>(blank: Blank) -> usize
    requires name { blank.name ≡ L.name }
    requires parts { blank.parts ≡ L.parts }
    requires one { 0 < blank.parts }
{
    let mut steps = Steps::<L>::new(blank);
    steps.tick();
    steps.tick();
    size_of_val(&steps)
}

#[test]
fn a_counter_takes_no_bytes(rt: HostRuntime) {
    assert_eq!(rt; count_two::<Brand>(Blank::new(1)), 0);
}
