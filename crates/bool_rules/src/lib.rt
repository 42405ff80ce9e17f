//! What an operation on two layers below a cell makes of a layout, as a definition, and its laws.
//!
//! Nothing of this runs: functions with an empty body carry the laws. `layer_ops` computes what is
//! defined here.
//!
//! # The definition
//!
//! - `shapes_of` of `specs/Shapes.antt`, over two flattenings: the rings are turned and rounded
//!   together, the operation's edges are linked to rings, and these are divided into parts, the
//!   shapes.
//! - `bool_shapes` of `specs/Booleans.antt`, over a layout: both layers are flattened below a cell,
//!   then `shapes_of`, or the first refusal.
//! - `specs/Dividing.antt` computes the parts of rings.
//!
//! # The laws
//!
//! - [`shapes_tell_places`] (`specs/ShapeLaws.antt`): some shape has a place inside exactly where
//!   the operation holds of the rounded layers there, at every place; the shapes have the
//!   operation's edges, each once; and whatever is rounded, linked and divided by the rules makes
//!   these shapes. [`parts_are_unique`]: rings have one list of parts.
//! - [`answers_are_those_of_rings`] (`specs/Inside.antt`): an operation's edges are found by the
//!   owners that edges list. Here the same is said by the rings that were rounded: a shape has a
//!   place inside where the half line from it to the right crosses an odd number of the edges that
//!   its rounded rings go, each as often as they go it. So a mistake in owners can't hide on both
//!   sides of the law of places.
//! - [`booleans_have_laws`] (`specs/Laws.antt`): an operation depends on what is below its cell
//!   alone, its shapes are such as a layout may hold, and they are where the operation holds of the
//!   rounded layers.
//!
//! # Files
//!
//! - `shape_laws.rt`, `ring_laws.rt`, `laws.rt`: the laws, in this order.
#![tactic(auto)]

mod laws;
mod ring_laws;
mod shape_laws;

pub use laws::booleans_have_laws;
pub use ring_laws::answers_are_those_of_rings;
pub use shape_laws::{parts_are_unique, shapes_tell_places};
