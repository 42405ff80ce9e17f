//! Laws of jobs and replies: what a job is, apart from how it is read, and that lines tell what
//! they were written for.
//!
//! Nothing of this runs: functions with an empty body carry the laws.
//!
//! # Jobs
//!
//! - [`jobs_are_their_lines`] (`specs/JobLines.antt`): a job is lines, each of its kind, in the
//!   order that the format gives: lines without words, the line `%cif`, the lines of the text, the
//!   lines of each session, and those of the order. This is a relation between bytes and a job.
//!   What is read is related to the job that it is read as, and what is related to a job, and not
//!   too long, is read as that job.
//! - [`faults_are_at_their_lines`] (`specs/Faults.antt`): of bytes that are no job the first line is
//!   named that can't come where it is; but the line `%order`, where the sessions that are named after
//!   it aren't there once for each of their steps.
//! - [`lines_and_words_are_cut`] (`specs/Cuts.antt`): the bytes are cut into lines after each
//!   newline, and lines into words at spaces and tabs, and in no other way.
//!
//! # Steps
//!
//! - [`steps_are_said`] (`specs/Steps.antt`): the words of a line are read as a step exactly where
//!   they say it by the table of step lines.
//! - [`lines_tell_steps`] (`specs/Written.antt`): the line that a client writes for a step, its name
//!   and what it takes with a space between words, says that step, for each step whose numbers a line
//!   can have. So steps of the same line are the same. The program reads such lines and writes none;
//!   `clients/python` and `tests/fuzz` write them so.
//!
//! # Questions
//!
//! - [`questions_are_asked`] (`specs/Questions.antt`): the words of a line of a live run are taken for
//!   a question exactly where they ask it by the table of questions.
//!
//! # Replies
//!
//! - [`lines_tell_replies`] (`specs/Told.antt`): the line of a reply tells the session, the step
//!   and the answer, for each reply whose numbers a line can have, but for the name of a
//!   transaction that was committed.
//! - [`lines_tell_the_order`] (`specs/Numbers.antt`): the numbers in the lines of an order are the
//!   order.
//!
//! # Files
//!
//! - `laws.rt`, `line_laws.rt`, `reply_laws.rt`: of jobs, of lines, steps and questions, and of replies. They
//!   are stated in `specs/Laws.antt`, `specs/LineLaws.antt` and `specs/ReplyLaws.antt`.
#![tactic(auto)]

mod laws;
mod line_laws;
mod reply_laws;

pub use laws::{faults_are_at_their_lines, jobs_are_their_lines};
pub use line_laws::{
    lines_and_words_are_cut, lines_tell_steps, questions_are_asked, steps_are_said,
};
pub use reply_laws::{lines_tell_replies, lines_tell_the_order};
