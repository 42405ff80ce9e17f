//! Labels of all edges, band by band.
//!
//! `Bands::label_all` says for each edge of the rounded inputs whether it is one of an operation's
//! edges: whether the operation's answers differ on its two sides (`face_rows/specs/Labels.antt`).
//! Its law determines the answer, however the edges are shared out. `OneBand` labels them all on
//! the caller's thread, `ScopedBands` a band in each of its threads, of which there are as many as its
//! [`Workers`] say. What a sweep looks at is found before, once and in threads (`face_labels::Shared`).
//!
//! # Example
//!
//! The test `examples::edges_are_labelled` of `geometry_tests` runs this.
//!
//! ```text
//! let clean = round(&rt, alloc, &rings)?;
//! let labels = OneBand.label_all(&rt, alloc, &clean, Op::Or)?;
//! ```
#![tactic(auto)]

mod bands;
mod cuts;
mod gate;
mod one_band;
mod scoped_bands;
mod workers;
mod written;

pub use bands::Bands;
pub use gate::{Gate, OpenGate};
pub use one_band::OneBand;
pub use scoped_bands::{ScopedBands, label_in_bands};
pub use workers::{MAX_WORKERS, Workers};
