//! Commands of texts in Caltech Intermediate Form 2.0, one at a time, from bytes.
//!
//! A text is cut into commands, each up to its semicolon, and what the bytes of a command write is
//! read by a function for each kind. The grammar is stated apart from any way of reading it, as a
//! relation by cases on whole texts (`specs/Grammar.antt`). [`grammar_is_what_is_read`] does
//! nothing and carries the law: what is read of a command's bytes is what the grammar spells.
//!
//! # Model
//!
//! - Bytes are of classes: blanks, separators, gaps, digits and bytes of names ([`Class`],
//!   `specs/Bytes.antt`).
//! - A reader takes something from the start of bytes, and returns what it is and the rest, or only
//!   what it is where nothing may follow. Contracts see what it returned without where its bytes
//!   lie (`specs/Views.antt`).
//! - [`Number`] is a sign and a magnitude, [`Vertex`] two numbers, and [`BoxNumbers`],
//!   [`Definition`], [`Scale`], [`Call`] and [`Change`] are what a command of their kind writes, as
//!   numbers of the text.
//!
//! # Limits
//!
//! No reader tests a limit of the layout. A magnitude above [`MAX_MAGNITUDE`] is read as
//! `MAX_MAGNITUDE + 1`, whatever its digits: no text may write one, so it is known to be too big.
//!
//! # Files
//!
//! - `cutting.rt`: [`command_len`], where a command ends (`specs/Cutting.antt`).
//! - `paths.rt`, `boxes.rt`, `layers.rt`, `definitions.rt`, `calls.rt`, `comments.rt`: a kind of
//!   command each, with the file of `specs` of the same name.
//! - `bytes.rt`, `blanks.rt`, `number.rt`: runs of bytes, and numbers of any number of digits
//!   (`specs/Numbers.antt`).
//! - `specs/Commands.antt`: the commands as values; `specs/Reading.antt`: the command that bytes
//!   write.
//! - `proofs/CommandGrammar.antt` and the other files named `..Grammar`: why reading and grammar
//!   agree.
//!
//! # Example
//!
//! The test `examples::a_command_is_cut_and_read` of `cif_tests` runs this.
//!
//! ```text
//! assert_eq!(rt; command_len(b"B 40 20 0 0; E"), Some(11));
//! // What comes after the `B`.
//! assert!(rt; read_box(b" 40 20 0 0").is_some());
//! let (side, rest) = integer(b" 40X20").ok_or("no integer")?;
//! assert_eq!(rt; side, 40);
//! assert_eq!(rt; rest, b"X20".as_slice());
//! ```
#![tactic(auto)]

mod blanks;
mod boxes;
mod bytes;
mod calls;
mod comments;
mod cutting;
mod definitions;
mod laws;
mod layers;
mod number;
mod paths;

pub use blanks::are_blanks;
pub use boxes::{BoxNumbers, read_box};
pub use bytes::{Class, skip};
pub use calls::{Call, Change, read_call};
pub use comments::is_comment;
pub use cutting::command_len;
pub use definitions::{Definition, Scale, read_definition};
pub use laws::grammar_is_what_is_read;
pub use layers::read_layer;
pub use number::{MAX_MAGNITUDE, Number, integer};
pub use paths::{Vertex, read_path};
