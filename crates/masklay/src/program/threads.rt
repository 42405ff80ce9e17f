//! What the program does with a job whose sessions run in threads.
ghost use Rattle.std.specs.Prelude.{◌≡◌, ◌≤◌, ◌+◌, length, true};
ghost use Rattle.std.specs.List.{list_any};
ghost use Rattle.session_core.specs.Machine.{is_memory};
ghost use Rattle.masklay.specs.Outcome.{job_in};
ghost use Rattle.masklay.specs.Threads.{AnswersOutcome, AnswersThreads};

use crate::program::options::Options;
use crate::program::outcome::{Begun, Finished, JobError, Notes, begin, is_out_of_memory};
use job_text::{MAX_JOB, order_of};
use lay_items::Snapshot;
use lay_point::Sequence;
use locked_desk::{Closed, Run, run_scripts};
use session_steps::{Reply, Step};
use std::alloc::Global;
use std::sync::Wait;
use std::thread::Threads;

/// Runs the job of the bytes, the steps of each session in a thread of its own. The bytes and `notes` are those of [`begin`].
pub(super) fn finish_in_threads(
    rt: &(impl Threads + Wait + Sync),
    alloc: Global,
    options: Options,
    bytes: &mut Vec<u8>,
    notes: &mut Notes,
) -> Result<Finished, JobError>
    requires { length bytes.old.items ≤ MAX_JOB + 1 }
    ensures { AnswersOutcome true (job_in options.bare bytes.old.items) result }
{
    let Begun { base, scripts, .. } = begin(alloc, options.bare, bytes, notes)?;
    finish_threads(rt, alloc, options.workers, base, scripts)
}

/// Runs the scripts' steps on the layout, those of each session in a thread of its own. The order is that of
/// the log of the closed desk.
fn finish_threads(
    rt: &(impl Threads + Wait + Sync),
    alloc: Global,
    workers: u8,
    base: Snapshot,
    scripts: Sequence<Sequence<Step>>,
) -> Result<Finished, JobError>
    ensures { AnswersThreads base scripts result }
{
    let Run { closed, replies } = run_scripts(rt, alloc, workers, base, scripts)?;
    if is_any_out_of_memory(replies.as_slice()) {
        return Err(JobError::NoMemory);
    }
    let Closed { book } = closed;
    let order = order_of(alloc, book.log(), replies.as_slice())?;
    Ok(Finished {
        layout: book.snapshot().share(alloc)?,
        replies,
        order: Sequence::from_vec(order),
    })
}

/// Returns whether a step of one of the sessions was out of memory.
fn is_any_out_of_memory(sessions: &[Sequence<Reply>]) -> bool
    ensures { result ≡ list_any (list_any is_memory) sessions.now }
{
    sessions
        .iter()
        .any(|replies| is_out_of_memory(replies.as_slice()))
}
