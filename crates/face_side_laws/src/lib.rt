//! Laws of sides: which edges are to the right of a place, and of a point.
//!
//! An edge of clean ones stays on one side of another (`proofs/Sides.antt`). So inside an edge the parities to
//! its right are everywhere the same (`Slide.antt`), in a row the edges have one order (`Rows.antt`), and at a
//! point the rows above it and below it go together with the level edges there (`Level.antt`, `Arms.antt`).
//! Nothing of this runs.
#![tactic(auto)]

mod laws;

pub use laws::parities_slide;
