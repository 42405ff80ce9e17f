//! What the program does with a job.
ghost use Rattle.std.specs.Prelude.{◌≡◌, ◌≤◌, ◌+◌, IfOk, Ok, false, length};
ghost use Rattle.std.specs.List.{list_any};
ghost use Rattle.lay_point.specs.Memory.{IsAnswer};
ghost use Rattle.masklay.specs.declared.program.outcome.JobError.TheVariants.{NoMemory as OutOfMemory};
ghost use Rattle.session_core.specs.Machine.{Ran, is_memory, start};
ghost use Rattle.undo_book.specs.declared.book.TheConstants.{MAX_CALLS};
ghost use Rattle.masklay.specs.Outcome.{Begins, finished_from, job_in, sessions_for, stop_of_cif, stop_of_job};
ghost use Rattle.masklay.specs.Threads.{AnswersOutcome, stop_of_run};

use crate::program::options::Options;
use band_workers::{OneBand, ScopedBands, Workers};
use cif_layout::FromCif;
use cif_read::{CifFault, FaultKind, read};
use job_advice::of_notices;
use job_text::{Job, JobFault, MAX_JOB, order_of};
use lay_cells::CellId;
use lay_items::Snapshot;
use lay_layouts::ItemId;
use lay_point::{NoMemory, Sequence};
use locked_desk::RunFault;
use session_core::{Machine, is_memory};
use session_steps::{Reply, Step, dealt, in_turn};
use std::alloc::Global;
use std::thread::Threads;
use txn_commands::Command;
use undo_rules::{MAX_SESSIONS, SessionCount};

/// Why no layout is written.
#[derive(Clone, Copy, Debug, PartialEq, Eq)]
pub(super) enum JobError {
    /// The job's first line with a fault.
    JobFault(u32),
    /// The first fault of the CIF text.
    CifFault(CifFault),
    /// The desk of sessions in threads didn't have what a seat keeps, or not all seats.
    DeskFault,
    /// A growth of memory was refused, or a step was answered so.
    NoMemory,
}

/// What is written where the job and its CIF text have no fault.
#[derive(Drop)]
pub(super) struct Finished {
    /// The replies to the steps of each session.
    pub(super) replies: Sequence<Sequence<Reply>>,
    /// The session of each step, in an order in which they are answered so.
    pub(super) order: Sequence<u8>,
    /// The layout that the steps led to.
    pub(super) layout: Snapshot,
}

/// What is worth a look in a job that has no fault, for a person.
#[derive(Debug, Drop)]
pub(super) struct Notes {
    /// Lines about its CIF text.
    pub(super) text: Vec<u8>,
    /// Whether a step names the top cell.
    pub(super) names_top: bool,
    /// The first shapes that stay as they were though all were to be directed, each with its cell.
    pub(super) staying: Vec<(CellId, ItemId)>,
}

impl Notes {
    /// Returns notes of nothing.
    pub(super) fn new(alloc: Global) -> Notes {
        Notes {
            text: Vec::new(alloc),
            names_top: false,
            staying: Vec::new(alloc),
        }
    }
}

impl From<JobFault> for JobError {
    ghost from_gives = { λ fault stop. stop ≡ stop_of_job fault };

    fn from(fault: JobFault) -> JobError {
        match fault {
            JobFault::Line(line) => JobError::JobFault(line),
            JobFault::NoMemory => JobError::NoMemory,
        }
    }
}

impl From<CifFault> for JobError {
    ghost from_gives = { λ fault stop. stop ≡ stop_of_cif fault };

    fn from(fault: CifFault) -> JobError {
        match fault.kind {
            FaultKind::NoMemory => JobError::NoMemory,
            _ => JobError::CifFault(fault),
        }
    }
}

impl From<RunFault> for JobError {
    ghost from_gives = { λ fault stop. stop ≡ stop_of_run fault };

    fn from(fault: RunFault) -> JobError {
        match fault {
            RunFault::Differs { .. } | RunFault::MissingSeat { .. } => JobError::DeskFault,
            RunFault::NoMemory => JobError::NoMemory,
        }
    }
}

impl From<NoMemory> for JobError {
    ghost from_gives = { λ _ stop. stop ≡ OutOfMemory };

    fn from(_refused: NoMemory) -> JobError {
        JobError::NoMemory
    }
}

/// What a job without fault begins with.
#[derive(Drop)]
pub(super) struct Begun {
    /// The layout of its CIF text.
    pub(super) base: Snapshot,
    /// The steps of each session.
    pub(super) scripts: Sequence<Sequence<Step>>,
    /// The session of each step, in the job's order.
    pub(super) order: Sequence<u8>,
}

/// Returns what the job of the bytes begins with. The bytes are dropped once they are read: where the job or its text has a
/// fault they stay. Appends to `notes` what is worth a look in the text.
pub(super) fn begin(
    alloc: Global,
    bare: bool,
    bytes: &mut Vec<u8>,
    notes: &mut Notes,
) -> Result<Begun, JobError>
    requires { length bytes.old.items ≤ MAX_JOB + 1 }
    ensures { Begins (job_in bare bytes.old.items) result }
{
    let Job {
        cif,
        scripts,
        order,
    } = job_in(alloc, bare, bytes.as_slice())?;
    let file = read(alloc, cif)?;
    notes.text = of_notices(alloc, cif)?;
    notes.names_top = name_top(scripts.as_slice());
    *bytes = Vec::new(alloc);
    let base = Snapshot::from_cif(alloc, file)?;
    Ok(Begun {
        base,
        scripts,
        order,
    })
}

/// Runs the job of the bytes, its steps in its own order. The bytes and `notes` are those of [`begin`].
pub(super) fn finish_in_turn(
    rt: &(impl Threads + Sync),
    alloc: Global,
    options: Options,
    bytes: &mut Vec<u8>,
    notes: &mut Notes,
) -> Result<Finished, JobError>
    requires { length bytes.old.items ≤ MAX_JOB + 1 }
    ensures { AnswersOutcome false (job_in options.bare bytes.old.items) result }
{
    let Begun {
        base,
        scripts,
        order,
    } = begin(alloc, options.bare, bytes, notes)?;
    finish_steps(rt, alloc, options.workers, base, scripts, order)
}

/// Returns the job of the bytes: the one that they spell or, where they are a bare CIF text, that text without steps.
pub(super) fn job_in(alloc: Global, bare: bool, bytes: &[u8]) -> Result<Job<'_>, JobFault>
    requires { length bytes.now ≤ MAX_JOB + 1 }
    ensures { IsAnswer JobFault.NoMemory result (job_in bare bytes.now) }
{
    if !bare {
        return Job::read(alloc, bytes);
    }
    Ok(Job {
        cif: bytes,
        scripts: Sequence::from_vec(Vec::new(alloc)),
        order: Sequence::from_vec(Vec::new(alloc)),
    })
}

/// Returns whether a step draws in the top cell, or combines its layers.
fn name_top(scripts: &[Sequence<Step>]) -> bool {
    scripts
        .iter()
        .any(|script| script.as_slice().iter().any(names_top))
}

/// Returns whether the step draws in the top cell, or combines its layers.
fn names_top(step: &Step) -> bool {
    match step {
        Step::Do(
            Command::Box { cell, .. }
            | Command::Poly { cell, .. }
            | Command::Place { cell, .. }
            | Command::Bool { cell, .. },
        ) => *cell == CellId::Top,
        _ => false,
    }
}

/// Runs the scripts' steps in this order on the layout.
fn finish_steps(
    rt: &(impl Threads + Sync),
    alloc: Global,
    workers: u8,
    base: Snapshot,
    scripts: Sequence<Sequence<Step>>,
    order: Sequence<u8>,
) -> Result<Finished, JobError>
    ensures { IsAnswer JobError.NoMemory result (Ok (finished_from base scripts order)) }
{
    let sessions = sessions_for(scripts.as_slice().len());
    let steps = in_turn(alloc, scripts, order.as_slice())?;
    let (machine, replies) = run_steps(rt, alloc, workers, base, sessions, steps)?;
    if is_out_of_memory(&replies) {
        return Err(JobError::NoMemory);
    }
    // The rest of the history takes the most memory, and is dropped before the replies are dealt.
    let (layout, log) = machine.into_book().end();
    let replies = dealt(alloc, sessions.number(), order.as_slice(), replies)?;
    let order = order_of(alloc, &log, replies.as_slice())?;
    Ok(Finished {
        layout,
        replies,
        order: Sequence::from_vec(order),
    })
}

/// Runs the steps, each with the number of its session, with so many workers.
fn run_steps(
    rt: &(impl Threads + Sync),
    alloc: Global,
    workers: u8,
    base: Snapshot,
    sessions: SessionCount,
    steps: Vec<(u8, Step)>,
) -> Result<(Machine, Vec<Reply>), NoMemory>
    ensures { IfOk result (λ r. Ran (start base sessions MAX_CALLS) steps.items r.1.items r.0) }
{
    let sessions = sessions.number();
    if workers < 2 {
        return Machine::run(rt, alloc, base, sessions, steps, &OneBand);
    }
    let bands = ScopedBands::of(Workers::nearest(workers));
    Machine::run(rt, alloc, base, sessions, steps, &bands)
}

/// Returns how many sessions run so many scripts: a job without steps has one that takes none.
fn sessions_for(scripts: usize) -> SessionCount
    ensures { result ≡ sessions_for scripts }
{
    let count = scripts.min(usize::from(MAX_SESSIONS)).max(1);
    SessionCount::new(count as u8).unwrap()
}

/// Returns whether one of the steps was out of memory.
pub(super) fn is_out_of_memory(replies: &[Reply]) -> bool
    ensures { result ≡ list_any is_memory replies.now }
{
    replies.iter().any(|reply| is_memory(reply))
}
