//! What is reported to a person of a fault: where it is, what is wrong there, and what to do.
//!
//! A program answers a fault of a job or of its CIF text by one line with a number, for other programs. For a
//! person [`of_cif_fault`], [`of_job_fault`] and [`of_live_fault`] make some lines of text of it: line and
//! column, the line with a caret under the place, what was expected, and what to change, in the editor that
//! wrote the text where that is the cure. The line and the column are proved to be those of the fault's offset
//! (`specs/Places.antt`); what the sentences say is tested. Where the top cell is empty, [`uncalled_symbols`] are
//! those to name in its place (`specs/Uncalled.antt`).
//!
//! ```text
//! masklay: line 2, column 7: a wire, which isn't read
//!   L NM; W 10 0 0 40 0; E
//!         ^
//!   Write the polygon of its outline, `P x y x y ..;`. In KLayout turn paths into polygons before saving.
//! ```
#![tactic(auto)]

mod advice;
mod cif_words;
mod job_words;
mod line;
mod line_advice;
mod no_job;
mod notices;
mod parts;
mod place;
mod problem;
mod refusals;
mod sections;
mod uncalled;
mod window;

pub use advice::{of_cif_fault, of_job_fault, of_live_fault, of_live_line, of_text_fault};
pub use notices::of_notices;
pub use refusals::{of_refusals, sentence_of};
pub use uncalled::uncalled_symbols;
