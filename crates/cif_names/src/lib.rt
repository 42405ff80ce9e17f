//! `--names`: names and labels of CIF texts, kept apart from the layout.
//!
//! Layout editors write a cell's name as `9 NAME;` in its definition, and labels as
//! `94 TEXT X Y [WORD];` on the layer that is set. To the layout these are user extensions, which
//! mean nothing. [`Names::of`] collects them from a text that was read: each is kept as a line of
//! its own, with the symbol in whose definition it is, or none. [`with_names`] puts the lines into
//! the text that is written: after the line that begins a symbol's definition come those of its
//! number. Those that set no layer come first, then the labels that have one, each with its layer
//! before it; so a text that is named twice is as it was named once.
//!
//! Labels are scaled to the database units in which definitions are written. One that isn't on
//! their grid is left out and counted, and so is every `9` or `94` of another form, and every
//! `91 NAME;`, an instance's name. Where a label's layer is set, its last word stays only if it is
//! a number, a size to KLayout, which refuses a text with a layer's name there. Both functions take
//! any bytes, also a text that the reader refuses.
//!
//! [`Titles`] has the name of each symbol: the first that stands in its definition.
//!
//! Contracts see [`Names`] as the entries in the order of the text, and how many were left out
//! (`names_of` of `specs/Names.antt`). What is written with them is `with_names` of
//! `specs/Woven.antt`.
//!
//! # Example
//!
//! The test `examples::a_name_comes_back` of `cif_tests` runs this.
//!
//! ```text
//! let names = Names::of(alloc, b"DS 1 1 1; 9 INV; DF; C 1; E")?;
//! let bytes = with_names(alloc, &names, b"DS 1 1 2;\nDF;\nC 1;\nE\n")?;
//! assert_eq!(rt; bytes.as_slice(), b"DS 1 1 2;\n9 INV;\nDF;\nC 1;\nE\n".as_slice());
//! ```
#![tactic(auto)]

mod labels;
mod laws;
mod maps;
mod names;
mod numbers;
mod pieces;
mod place;
mod titles;
mod words;
mod woven;

pub use laws::{
    kept_lines_are_lines, labels_are_scaled, names_come_back, places_are_the_readers,
    without_them_the_text_is_the_same,
};
pub use names::Names;
pub use titles::Titles;
pub use woven::with_names;
