//! Rings of edges, their parts, and one path round several rings.
//!
//! A place is inside closed paths where the half line from it to the right crosses an odd number of
//! their edges (`lay_point/specs/Parity.antt`). [`link`] makes rings of edges, [`parts`] divides
//! rings into those that touch, and [`bridge`] makes one closed path of all rings of a shape, so
//! that one polygon can draw them. Each keeps the parity of every place.
//!
//! # Model
//!
//! - Contracts see a ring and a path as the list of its points, and an edge as the pair of its
//!   ends, the lesser first. What the rings and the parts are is `face_ring_laws/specs/Linked.antt`
//!   and `face_ring_laws/specs/Parts.antt`; the path is `bridged` of
//!   `lay_point/specs/Bridges.antt`.
//! - `link` requires edges in order and in range, each once, and an even number with a given point
//!   for an end. It goes from the lesser end of the least edge left, at each point along the least
//!   edge left there, up to the first return to the start. A ring above `MAX_RING_POINTS` of
//!   `lay_point` is refused ([`LinkFault`]).
//! - `bridge` goes round the first ring, and from that ring's first point out to each further ring,
//!   round it and back. `is_path_short` counts that path's points without making it: a further ring
//!   adds its own, and two where it doesn't begin at the start (`specs/Paths.antt`).
//!
//! # How parts are found
//!
//! Two rings are joined where their boxes have a point in common, sides included. A list of boxes goes
//! from where the first of them ends to where the last one starts, by their x: boxes that cover this
//! stretch have a column in common with each of the list. In the order of their lower sides two passes
//! join them to all that they touch (`covering.rt`). The others are divided across the column halfway
//! through the stretch into those that reach its lower side and those that reach its higher one, over
//! and over, until they are few: two boxes that have a point in common both reach the side where it is,
//! so such a pair is joined in one list at least (`Joins` of `specs/Joining.antt`). A stretch halves
//! with each division, and an end of a box is within one stretch of each depth at most, so the time
//! grows with the number of boxes and the depth.
//!
//! Rings that are joined so far are the trees of a forest, in which each has an earlier one for its
//! parent, and the first has itself (`specs/Forest.antt`).
//!
//! # Files
//!
//! - `linking.rt`, `incidence.rt`: rings, and the edges left at a point (`specs/Incidence.antt`).
//! - `dividing.rt`, `joining.rt`, `forest.rt`: parts; `bottoms.rt`, `stretch.rt`, `covering.rt`,
//!   `cut.rt`: which boxes are joined (`specs/Joining.antt`, `specs/Bottoms.antt`).
//! - `bridging.rt`: the path; `fault.rt`: why edges aren't linked.
//!
//! # Example
//!
//! ```text
//! let rings = link(alloc, &edges)?;
//! for part in parts(alloc, rings)? {
//!     let path = bridge(alloc, &part)?;
//!     let one = Ring::new(alloc, path.as_slice())?;
//! }
//! ```
#![tactic(auto)]

mod bottoms;
mod bridging;
mod covering;
mod cut;
mod dividing;
mod fault;
mod forest;
mod incidence;
mod joining;
mod linking;
mod stretch;

pub use bridging::{bridge, is_path_short};
pub use dividing::parts;
pub use fault::LinkFault;
pub use linking::link;
