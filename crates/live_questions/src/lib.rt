//! Answers to the questions of a live run.
//!
//! A [`Question`](job_text::Question) asks what is committed: the cells, the items of a cell, an
//! item, the transactions, and what one of them wrote. [`answer`] gives the comments that answer it,
//! one a line, of which the last is `(end);`. They are a function of the names of symbols, the book's
//! layout and its transactions alone, `told_text` of `specs/Answers.antt`; what sessions have open isn't seen,
//! and nothing changes.
//!
//! # Files
//!
//! - `answering.rt`: the one call. `cells.rt`, `items.rt` and `history.rt` put the lines of each
//!   question to a device, through a buffer; `comments.rt` what they share.
//!
//! ```text
//! let text = answer(alloc, &None, Question::Items(CellId::Top), machine.book())?;
//! assert_eq!(rt; text.as_slice(), b"(1.1.1 shape top M 0 0 10 0 10 10 0 10);\n(end);\n");
//! ```
#![tactic(auto)]

mod answering;
mod cells;
mod comments;
mod history;
mod items;

pub use answering::answer;
