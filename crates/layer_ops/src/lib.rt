//! Operations on two layers: AND, OR, NOT and XOR of two flattenings, as new shapes.
//!
//! `combine` rounds the rings of both inputs together, finds the operation's edges, links them to
//! rings and divides these into shapes. What it answers is a function of the inputs (`combined` of
//! `specs/Combining.antt`), and some shape has a place inside exactly where the operation holds of
//! the rounded inputs there. Whatever finds the edges, by the trait `Bands`, does so by the
//! definition.
//!
//! # Example
//!
//! The test `examples::layers_are_combined` of `geometry_tests` runs this.
//!
//! ```text
//! let first = flatten(alloc, &snapshot, CellId::Top, &a)?;
//! let second = flatten(alloc, &snapshot, CellId::Top, &b)?;
//! let shapes = combine(&rt, alloc, Op::Not, &first, &second, &OneBand)?;
//! ```
#![tactic(auto)]

mod combining;
mod counting;
mod edges;
mod fault;
mod limits;
mod shapes;
mod turning;

pub use combining::combine;
pub use fault::OpFault;
pub use limits::MAX_SEGMENTS;
