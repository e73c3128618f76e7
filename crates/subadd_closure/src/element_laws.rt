//! The closures of elements, and what is known of their stretches and of a closure that is refused. Each function is a
//! theorem: its contract is the law, its body is empty.

ghost use Rattle.subadd_closure.specs.ElementClosures.{ClosureOfPoint, ClosureOfSegment};
ghost use Rattle.subadd_closure.specs.HeavyLaws.{HeavyIsRefused};
ghost use Rattle.subadd_closure.specs.Lattices.{LatticeValues};
ghost use Rattle.subadd_closure.specs.MeetLaws.{StretchesMeet};

/// The closures of a point and of a line on an open stretch.
pub fn elements_close()
    ensures point { ClosureOfPoint }
    ensures segment { ClosureOfSegment }
{}

/// As many stretches end before the next begins as the length of one goes whole times into its start.
pub fn stretches_meet()
    ensures { StretchesMeet }
{}

/// A closure that is answered as TooWide makes the next call, a minimum or a convolution with it, TooWide.
pub fn heavy_is_refused()
    ensures { HeavyIsRefused }
{}

/// The values of a lattice, and of the value 0 at 0.
pub fn lattice_values()
    ensures { LatticeValues }
{}
