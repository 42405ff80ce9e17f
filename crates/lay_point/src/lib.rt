//! Points, turns, layer names and rings: the words of every layer of the layout database.
//!
//! Lengths are in database units of 5 nanometres. Parity tells whether a place is inside closed
//! paths: the half line from it to the right crosses an odd number of their edges (`odd` of
//! `specs/Parity.antt`, over the edges of `specs/RingEdges.antt`).
//!
//! # Model
//!
//! - [`Point`] is its two coordinates, and [`Turn`] a mirror, quarter turns and a shift, applied in
//!   this order.
//! - [`Rect`] is its lower left and its upper right corner.
//! - [`Edge`] is kept as its two ends. Contracts see the pair of them, the lesser first.
//! - [`Ring`] is kept as four points in place, else as a `Vec`. Contracts see the list of its
//!   points.
//! - [`LayerName`] is kept as 16 bytes in place and a length. Contracts see the list of its bytes.
//! - [`Sequence`] is kept as a `Vec`. Contracts see the list of its elements.
//! - [`ShrinkingIntoIter`] lends a list's elements by value and gives their memory back as it goes. Contracts
//!   see the list of those that are left.
//!
//! A call that may run out of memory says so in its result: [`NoMemory`], `AllocError`, or the
//! variant `NoMemory` of its fault. `IsAnswer` of `specs/Memory.antt` says that an answer is the
//! wanted one, or out of memory in its place.
//!
//! # Invariants
//!
//! - `Point` keeps nothing: its coordinates are any `i32`. One of a layout has both in
//!   `-LIMIT..=LIMIT`, which [`Point::is_in_range`] tests; [`Turn::then`] and [`Turn::apply`]
//!   return `None` outside.
//! - `Rect` keeps nothing: its corners are any points.
//! - `Edge`: its ends differ and are in order ([`Edge::new`]).
//! - `Ring`: 3 to [`MAX_RING_POINTS`] points in range; neighbours differ, the last and the first
//!   among them (`IsRing` of `specs/Rings.antt`). [`Ring::new`] drops repeats, then tests the rest,
//!   and names the first fault as a [`RingFault`].
//! - `LayerName`: 1 to [`MAX_LAYER_NAME`] digits and upper-case letters of ASCII, followed by zeros
//!   (`IsPadded` of `specs/Padded.antt`), tested by [`LayerName::new`].
//!
//! # Files
//!
//! - `point.rt`, `turn.rt`, `rect.rt`, `edge.rt`, `ring.rt`, `layer_name.rt`: a type each.
//! - `sequence.rt`, `given.rt`, `memory.rt`: lists and failed allocations, for all crates.
//! - `specs/Bridges.antt`: the one path round all rings of a shape.
//! - `laws.rt`: [`whole_numbers_have_laws`] does nothing and carries the laws of whole numbers
//!   without bounds. `proofs/Polynomials.antt` proves an identity of polynomials by computing both
//!   normal forms; `Products.antt`, `Signs.antt` and `Division.antt` have products, signs and
//!   rounding.
//!
//! # Example
//!
//! ```text
//! let square = [Point { x: 0, y: 0 }, Point { x: 4, y: 0 }, Point { x: 4, y: 4 }, Point { x: 0, y: 4 }];
//! let ring = Ring::new(alloc, &square)?;
//! assert_eq!(rt; ring.points(), square.as_slice());
//! ```
#![tactic(auto)]

mod edge;
mod given;
mod laws;
mod layer_name;
mod memory;
mod point;
mod rect;
mod ring;
mod sequence;
mod turn;

pub use edge::Edge;
pub use given::ShrinkingIntoIter;
pub use laws::whole_numbers_have_laws;
pub use layer_name::{LayerName, MAX_LAYER_NAME};
pub use memory::NoMemory;
pub use point::{LIMIT, Point};
pub use rect::Rect;
pub use ring::{MAX_RING_POINTS, Ring, RingFault, without_repeats};
pub use sequence::Sequence;
pub use turn::{Quarter, Turn};
