//! The laws of numbers on grids and within bounds. Each function is a theorem: its contract is the
//! law, its body is empty.

ghost use Rattle.std.specs.Prelude.{ℕ, ◌<◌};
ghost use Rattle.rational.specs.Rational.{ℚ};
ghost use Rattle.rational.specs.Grid.{Whole, Within};
ghost use Rattle.rational.specs.GridLaws.{GridsClose, BoundsClose, PartsOnGrid, SmallOnGrid, SumOnGrid};

/// Sums, products and quotients of numbers on grids stand on grids, and within bounds.
pub fn grids_and_bounds_close()
    ensures grids { GridsClose }
    ensures bounds { BoundsClose }
{}

/// A number on a grid and within a bound has parts of known size.
pub fn parts_on_grid()
    ensures { (d : ℕ) (v q : ℚ) → 0 < d → Whole d q → Within v q → PartsOnGrid d v q }
{}

/// Where grid and bound are small enough, the number and the numbers on the way to a sum fit 127 bits.
pub fn sizes_on_grid()
    ensures number { SmallOnGrid }
    ensures sum { SumOnGrid }
{}
