//! Which edges cross a row, in which order, and which edges are an operation's.
//!
//! The row r is the height r + 1/2, which no end of an edge is at. Edges are those of rounded
//! inputs, which are clean: they meet at their ends only, so the edges of a row are in the same
//! order along all of it (`AreSound` of `specs/Sound.antt`). An operation's edges are those on
//! whose two sides its answers differ (`specs/Labels.antt`).
//!
//! # Model
//!
//! - [`Op`] is one of the four operations, and [`Op::answer`] its answer from whether the first and
//!   the second input hold (`specs/Operations.antt`).
//! - [`Band`] is the rows from one up to another, without that (`specs/Bands.antt`).
//! - [`Crossing`] is where an edge crosses a row, as a fraction. Arithmetic is exact, in 128 bits;
//!   the type keeps that its denominator is positive and that both numbers are within bounds.
//! - [`row_edges`] lists the numbers of the edges that cross a row, from left to right
//!   (`AreRowEdges` of `specs/Rows.antt`).
//!
//! # Laws
//!
//! [`operations_have_laws`] and [`operations_tell_places`] do nothing and carry the laws
//! (`specs/Operations.antt`, `specs/Laws.antt`). Of clean rounded edges a place is to the left of
//! an odd number of an operation's edges exactly where the operation holds of the rounded inputs
//! there. An even number of them has a given point for an end, and they rise, so they can be linked
//! to rings.
//!
//! Inside an edge the parities to its right are everywhere the same, and in a row the edges have
//! one order (`face_side_laws/proofs/Slide.antt`, `face_side_laws/proofs/Rows.antt`). Going through
//! a row from the right, the number of the operation's edges is odd where the operation holds
//! (`proofs/CutLaw.antt`), and so it is of the edges to the right of any place.
//!
//! # Files
//!
//! - `op.rt`, `band.rt`, `rows.rt`, `crossing.rt`: a word of the model each.
//! - `directed.rt`: edges from their lower ends to their upper ones; `exact.rt`: arithmetic.
//! - `laws.rt`, `label_laws.rt`: the laws.
#![tactic(auto)]

mod band;
mod crossing;
mod directed;
mod exact;
mod label_laws;
mod laws;
mod op;
mod rows;

pub use band::Band;
pub use crossing::Crossing;
pub use directed::{crosses_row, upward};
pub use label_laws::operations_tell_places;
pub use laws::operations_have_laws;
pub use op::Op;
pub use rows::row_edges;
