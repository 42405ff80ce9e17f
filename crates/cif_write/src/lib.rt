//! Writer of mask layouts in Caltech Intermediate Form.
//!
//! A layout is written wrapped (`specs/Wrap.antt`): its items are in symbols, each shape has the
//! one path that goes round all its rings, and the top cell is one plain call. The text is a list
//! of lines, `specs/Text.antt`.
//!
//! It is put to an `Out` of `byte_io`, a device that takes bytes, through an `OutBuffer`, so it is
//! never in memory as a whole. [`prepare`] does what can run out of memory, and [`Prepared::put`]
//! writes: all of the text and nothing else, or a prefix of it where the device fails. [`write`] is
//! the two. [`Prepared::put_as`] writes upright rectangles as boxes where it is asked to
//! (`specs/Boxes.antt`).
//!
//! # Model and invariants
//!
//! - [`Prepared`] is kept as a borrowed snapshot and a number that no symbol has. Contracts see its
//!   `Layout`.
//! - Its number is the least that no symbol has (`least_unused` of `specs/Wrap.antt`), which
//!   `prepare` finds; where a `u32` has none left, that is out of memory.
//!
//! # Example
//!
//! The test `examples::a_layout_is_written` of `cif_tests` runs this.
//!
//! ```text
//! let mut out = MemoryOut::new(alloc, 4096, 1_000_000, Failing::ByErr);
//! assert!(rt; write(alloc, &snapshot, &mut out).is_ok());
//! ```
#![tactic(auto)]

mod boxes;
mod laws;
mod points;
#[cfg(test)]
mod tests;
mod text;
mod turns;
mod wrap;
mod writer;

pub use boxes::{Rectangles, UprightBox};
pub use laws::{lines_are_not_idle, the_wrapping_symbol_is_the_least_unused};
pub use writer::{Prepared, WriteFault, prepare, write};
