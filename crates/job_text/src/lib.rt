//! Jobs as they are read, and replies as they are written.
//!
//! A job is lines: `%cif` and a CIF text, then `%session 1`, `%session 2` and so on, each with a
//! step a line, and at last `%order` and the sessions in the order of their steps. A reply is a
//! comment of CIF, a line of its own. This crate knows the types of steps, replies and logs, and
//! runs nothing.
//!
//! # Model
//!
//! - [`Job`] is the bytes of its CIF text, lent, the steps of each session and the order of the
//!   sessions. Contracts see the record of these three (`job_of` of `specs/Job.antt`).
//!   [`Job::read`] gives the job, or the number of the first line with a fault ([`JobFault`]); a
//!   job above [`MAX_JOB`] bytes is refused as line 0, before anything else.
//! - [`order_of`] makes, from the log of a book, an order of the steps in which they are answered
//!   alike (`specs/Order.antt`).
//! - [`put_comments`] puts a comment for each reply, and the order, to a device, piece by piece and
//!   without memory. [`print`] is the same with the fault of a writer, and [`comments`] gives the
//!   text instead (`specs/Replies.antt`).
//! - A live run has its steps in lines `SESSION STEP`, one at a time. [`live_line`] says what a
//!   line asks for ([`LiveLine`]), and [`reply_line`] and [`unknown_line`] give the comments that
//!   answer it (`specs/Live.antt`). A [`Question`] is a line that changes nothing
//!   (`specs/Questions.antt`); `live_questions` answers it, with the names and the words of items
//!   that `reply_text.rt` puts, into a [`TextOut`].
//!
//! # Files
//!
//! - `job.rt`, `scripts.rt`, `order_section.rt`: the sections of a job.
//! - `text.rt`: where its CIF text ends (`specs/Text.antt`).
//! - `words.rt`, `fields.rt`, `step_line.rt`: words of a line, parted by spaces and tabs
//!   (`specs/Words.antt`), and the steps that they say (`specs/Steps.antt`). Lines are those of
//!   `byte_io/specs/Lines.antt`.
//! - `reply_text.rt`, `printing.rt`, `order.rt`, `text_out.rt`: what is written.
//! - `live.rt`, `question.rt`: lines of a live run.
//!
//! # Example
//!
//! ```text
//! let job = Job::read(alloc, b"%cif\nE\n%session 1\nopen\n")?;
//! assert_eq!(rt; job.order.as_slice(), [1].as_slice());
//! ```
#![tactic(auto)]

mod fields;
mod job;
mod live;
mod order;
mod order_section;
mod printing;
mod question;
mod reply_text;
mod scripts;
mod step_line;
mod text;
mod text_out;
mod words;

pub use job::{Job, JobFault, MAX_JOB};
pub use live::{LiveLine, live_line, reply_line, unknown_line};
pub use order::order_of;
pub use printing::{comments, print, put_comments};
pub use question::Question;
pub use reply_text::{put_cell, put_found, put_item_id, put_refusal, put_txn};
pub use text_out::TextOut;
