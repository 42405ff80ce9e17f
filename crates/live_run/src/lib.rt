//! `--live`: a run over devices whose steps come in lines, each answered before more is read.
//!
//! An editor that keeps a process sends it a job without scripts, `%cif` and a CIF text, then the
//! line `%live`, and from then on lines `SESSION STEP` or `%write`. [`run_live`] answers each line
//! as soon as its newline has come: with the reply's comment, or with the text of the layout as it
//! is then. A line that is neither is answered by its number, and a blank one not at all; neither
//! changes anything. At the end of the input come the comments of the order and the layout. So the
//! replies, the order and the layout at the end are those of a job of the same steps. The run has
//! `MAX_SESSIONS` sessions.
//!
//! A fault of the job or of its CIF text isn't written but is an end of the run, [`LiveEnd`], which
//! the caller reports. At most [`MAX_READS`] reads are made of the input. A caller that has its input
//! piece by piece hands it to a [`LineFeed`].
//!
//! # Model
//!
//! - Between two bytes a run is a course, which is the lines of the head or the run after them, and
//!   what has come of the next line (`specs/Course.antt`, `specs/Feed.antt`). It keeps no more of
//!   the input than its head and one line.
//! - The run after the head is a machine of `session_core`, the sessions and replies of the steps
//!   so far, and the number of lines. Contracts see these, and what a line is answered, over the
//!   step function of the machine, is `specs/Live.antt`.
//! - Which lines are answered how is `specs/Said.antt`; how a run ends, by the bytes that the input
//!   gave, is `specs/Ending.antt`. What is said of a failed input is what keeps an answer from
//!   waiting for the next line: all lines that came whole are answered by then.
//! - A [`Journal`] gets the lines up to the live line, and then each step before its answer
//!   (`specs/Journal.antt`). [`run_journaled`] begins after the lines that one has: such a run is one
//!   over these lines and then the input's, but for the answers to the first.
//! - A run shows its layout as [`Showing`] asks: with the names and labels of its head's text, and
//!   with its shapes directed (`specs/Shown.antt`). Directing has no one answer, so what is said is a
//!   relation; [`plain_runs_say_one`] carries the law that it is one text where shapes stay.
//! - [`lines_are_steps`] and [`journals_resume`] do nothing and carry laws (`specs/Laws.antt`): the
//!   lines so far lead where their steps lead as a job, with the same replies; and so do the lines that
//!   a journal has of them.
//!
//! # Files
//!
//! - `run.rt`: the run from its first byte; `line_feed.rt`: bytes put together to lines.
//! - `journal.rt`: where lines are kept, so that a later run can begin from them.
//! - `course.rt`, `base.rt`: head and steps, and the layout of the head (`specs/Cif.antt`).
//! - `live.rt`: the sessions, and what a line is answered; `put.rt`: the writing of it.
//! - `showing.rt`: how a layout is shown, of a job's too.
//! - `ending.rt`: how a run ends.
//!
//! # Example
//!
//! ```text
//! match run_live(rt, alloc, &bands, showing, &mut input, &mut out) {
//!     LiveEnd::Job { line, .. } => .. // nothing is written, and the caller says where the fault is
//!     ..
//! }
//! ```
#![tactic(auto)]

mod base;
mod course;
mod ending;
mod journal;
mod laws;
mod line_feed;
mod live;
mod put;
mod run;
mod showing;

pub use ending::{EndNotes, LiveEnd};
pub use journal::{Journal, KeepFault, NoJournal};
pub use laws::{journals_resume, lines_are_steps, plain_runs_say_one};
pub use line_feed::LineFeed;
pub use live::is_refusal;
pub use run::{MAX_READS, run_journaled, run_live};
pub use showing::{Showing, named_bytes, names_for, names_when, put_layout};
