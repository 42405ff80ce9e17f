//! Why edges of snap-rounded segments meet only at shared ends, and the exact test of two edges.
//!
//! A segment becomes its chain, the hot centres whose pixels it meets; an edge joins two neighbours
//! of a chain (`specs/Edges.antt`, `specs/Chains.antt`). Functions with an empty body carry the
//! laws. [`meet_at_ends`] alone runs: it says whether two different edges have only an end in
//! common (`MeetAtEnds` of `specs/Meeting.antt`). Coordinates may be any `i32`; all arithmetic is
//! exact, in 128 bits.
//!
//! # The laws, and how they are proved
//!
//! - [`edges_meet_only_at_ends`]: two different edges of segments have no place in common but a
//!   point that is an end of both. The proof takes points of the segments in the pixels of the
//!   edges' ends. At rest the pieces between them don't cross, since the pixel of a crossing is hot
//!   (`proofs/Rest.antt`). Then these points move to their centres, first along x, then along y,
//!   and no end ever comes to lie on the other piece (`proofs/Motion.antt`), so the edges don't
//!   cross either (`proofs/MeetingLemmas.antt`). Edges that share an end have no other place in
//!   common (`proofs/SharedEnds.antt`).
//! - [`areas_have_laws`] and [`pieces_touch_before_they_cross`] (`specs/Areas.antt`,
//!   `specs/Pieces.antt`): two pieces cross properly where the quadrilateral of their ends is
//!   convex, so that four areas are positive. While the ends move evenly along x the areas change
//!   evenly too. `proofs/Stops.antt` finds the first time at which one of them is 0,
//!   `proofs/Ends.antt` which end then lies on the other piece, and `proofs/Sideways.antt` joins
//!   the two.
//! - [`chains_have_laws`] and [`rounded_edges_are_clean`]: a segment has one chain. Its neighbours
//!   are the segment's edges, it joins the segment's ends (`proofs/Chains.antt`), and different
//!   edges of chains have only ends in common.
//! - [`rounded_paths_have_laws`] and [`edges_of_rounded_rings_have_laws`] (`specs/Rounding.antt`,
//!   `specs/Undirected.antt`): chains that are joined are walks of these edges
//!   (`proofs/Walks.antt`, `proofs/Rounded.antt`). Of the undirected edges that some closed walks
//!   go an odd number of times, an even number have a given point for an end (`proofs/Edges.antt`).
//!
//! # Example
//!
//! The test `examples::diagonals_cross` of `geometry_tests` runs this.
//!
//! ```text
//! let crossed = match (Edge::new(a, b), Edge::new(c, d)) {
//!     (Some(e), Some(f)) => e != f && !meet_at_ends(e, f),
//!     _ => false,
//! };
//! ```
#![tactic(auto)]

mod chain_laws;
mod laws;
mod meeting;
mod piece_laws;

pub use chain_laws::{
    chains_have_laws, edges_of_rounded_rings_have_laws, rounded_edges_are_clean,
    rounded_paths_have_laws,
};
pub use laws::edges_meet_only_at_ends;
pub use meeting::meet_at_ends;
pub use piece_laws::{areas_have_laws, pieces_touch_before_they_cross};
