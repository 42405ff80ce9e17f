//! Reader of Caltech Intermediate Form 2.0: symbols with scales, calls with turns and mirrors,
//! polygons, boxes with directions, layers, comments and extensions.
//!
//! [`read`] returns the meaning of a text, a [`CifFile`], or its first fault with its offset, a
//! [`CifFault`]. Wires, round flashes and deletions of definitions are refused.
//!
//! # Model
//!
//! - `CifFile` is the numbers of the symbols and the elements, in the order of the text, and how
//!   many extensions were passed over and elements dropped. Contracts see the record of these,
//!   `Contents` of `specs/Contents.antt`.
//! - [`Element`] is a polygon on a layer or a call ([`Figure`]), in a cell.
//! - A scale (`ratio.rt`) is kept as it is written. Distances of a text are hundredths of a
//!   micrometre times the scale of their definition; they are read as database units of 5
//!   nanometres (`specs/Scales.antt`).
//!
//! Commands are read in order, each against what was read before it: the definition that is open,
//! with its scale, and the layer (`specs/Content.antt`). Calls are bound at the end of the text, so
//! a symbol may be called before it is defined.
//!
//! The clauses of `read`: its result is the meaning of the text, or its first fault in the order of
//! the checks (`specs/Meaning.antt`); what is read is a text of the grammar of `cif_grammar`, and
//! means what its commands mean; a text of the grammar means what its commands mean; and a text
//! above `MAX_TEXT` bytes is refused before anything else. Any other result can give way to
//! NoMemory at offset 0. That a text has one meaning is [`a_text_has_one_meaning`].
//!
//! # Invariants
//!
//! - `CifFile`: it is the contents of a sound layout. Its elements are in cells that are there and
//!   are rings, or calls of symbols that are there with turns in range, and no symbol contains
//!   itself (`IsSoundFile` of `specs/Contents.antt`). Only `read` makes one, and tests this once.
//! - A scale's two numbers are within what a text may write, and neither is zero (`IsRatio` of
//!   `specs/Scales.antt`), tested where a definition begins.
//!
//! # Files
//!
//! - `reader.rt`: the text, cut into commands; `content.rt`: what a command adds or why it is
//!   refused.
//! - `polygon.rt`, `boxes.rt`, `turns.rt`, `ratio.rt`: what a command draws or calls, in database
//!   units.
//! - `binding.rt`: calls bound to symbols, and the search for a symbol that contains itself.
//! - `file.rt`, `element.rt`, `fault.rt`: what `read` returns. Numbers and names of faults are
//!   `specs/Faults.antt`.
//!
//! # Example
//!
//! The test `examples::a_text_is_read` of `cif_tests` runs this.
//!
//! ```text
//! let file = cif_read::read(alloc, b"DS 1; L NM; B 40 20 0 0; DF; C 1 T 5 0; E")?;
//! assert_eq!(rt; file.elements().len(), 2);
//! ```
#![tactic(auto)]

mod binding;
mod boxes;
mod content;
mod element;
mod fault;
mod file;
mod laws;
mod polygon;
mod ratio;
mod reader;
mod turns;

pub use content::{Content, Pending};
pub use element::{Element, Figure};
pub use fault::{CifFault, FaultKind};
pub use file::{CifFile, MAX_SYMBOLS, MAX_TEXT};
pub use laws::a_text_has_one_meaning;
pub use reader::{begins_with_end, read};
