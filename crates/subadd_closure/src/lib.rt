//! Subadditive curves, and the subadditive closure of a curve: the fold of the closures of its points and segments,
//! whose last step is a convolution with the value at 0 set to the curve's own.
#![tactic(auto)]

mod again;
mod below;
mod closing;
mod covered;
mod element_laws;
mod from_start;
mod idle_parts;
mod lattices;
pub mod laws;
mod multiples;
mod ordered;
mod overlaps;
mod part;
mod part_stars;
mod parts;
mod points;
mod quick_bounds;
mod segments;
mod star_convolution;
mod stars;
mod starting;
mod stretches;
mod subadditive;
mod thinned;
mod useful;

pub use closing::close;
pub use element_laws::{elements_close, heavy_is_refused, lattice_values, stretches_meet};
pub use lattices::{lattice, origin};
pub use points::point_closure;
pub use segments::segment_closure;
pub use subadditive::is_subadditive;
