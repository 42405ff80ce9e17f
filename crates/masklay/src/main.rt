//! The program `masklay`: reads a job from standard input, a CIF text and the steps of sessions on
//! it, and writes the replies to the steps, their order and the CIF text of the layout that they
//! lead to.
//!
//! `main` only wires the standard streams to `command_line::launch`, which is generic over a device
//! that gives bytes and two that take them. It is `program::run` with the options that the words
//! say: a `job_text::Job` is read from the input, a `session_core::Machine` takes its steps, and
//! then the output is written; what it takes of memory is taken before its first byte.
//!
//! What is written is a function of the bytes that were read (`IsOutput` of `specs/Output.antt`).
//! With `--threaded` the sessions run in threads, by `locked_desk`, and what is written is that of
//! one of their runs (`specs/Threads.antt`). Without it all is done by `program::run_in_turn`,
//! which never waits. With `--oriented` the layout's shapes are directed by
//! `lay_oriented` before it is written (`specs/Oriented.antt`), with `--names` names and labels are
//! put into its text by `cif_names` (`specs/Named.antt`), and with `--live` lines are answered one
//! by one, by `live_run` (`specs/Live.antt`).
//!
//! ```text
//! let mut input = MemoryIn::new(b"%cif\nE\n", 4096, 1000);
//! let mut out = MemoryOut::new(alloc, 4096, 1000, Failing::ByErr);
//! let mut errors = MemoryOut::new(alloc, 4096, 1000, Failing::ByErr);
//! let options = Options { workers: 4, ..Options::plain() };
//! assert_eq!(rt; run(&rt, alloc, options, &mut input, &mut out, &mut errors), Status::Done);
//! assert_eq!(rt; out.written(), b"DS 1 1 2;\nDF;\nC 1;\nE\n");
//! ```
#![tactic(auto)]

mod arguments;
mod command_line;
mod files;
mod journal;
mod program;
mod streams;

use command_line::words;
use files::run_files;
use std::process::ExitCode;
use streams::StandardOutput;

fn main(rt: HostRuntime) -> ExitCode {
    let mut errors = StandardOutput::new(rt.stderr());
    let status = run_files(&rt, &rt, words(&rt), &mut errors);
    ExitCode::from(status.code())
}
