//! The layout of a CIF text.
//!
//! What `cif_read` read, a `CifFile`, becomes a sound layout of `lay_items`: its symbols in the
//! order of their definitions, and its element q as item 0.0.q (`specs/FromCif.antt`). Neither the
//! reader nor the layout knows of the other: this crate depends on both ([`FromCif`]), and another
//! format would have one of its own.
//!
//! # Example
//!
//! The test `examples::a_layout_is_written` of `cif_tests` runs this.
//!
//! ```text
//! let snapshot = Snapshot::from_cif(alloc, cif_read::read(alloc, text)?)?;
//! ```
#![tactic(auto)]

mod from_cif;

pub use from_cif::FromCif;
