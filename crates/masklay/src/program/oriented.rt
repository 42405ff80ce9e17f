//! What is given out of a job: its outcome, with the layout's shapes directed and with the names of its text where that is
//! asked for.
ghost use Rattle.std.specs.Prelude.{◌≡◌, ◌≤◌, ◌+◌, IfOk, false, length, true};
ghost use Rattle.live_run.specs.Shown.{names_for};
ghost use Rattle.masklay.specs.Named.{names_in};
ghost use Rattle.masklay.specs.Oriented.{AnswersGiven, AnswersGivenOf, directed_part, finished_part};
ghost use Rattle.masklay.specs.Outcome.{job_in};

use crate::program::named::names_in;
use crate::program::options::Options;
use crate::program::outcome::{Finished, JobError, Notes, finish_in_turn};
use crate::program::threads::finish_in_threads;
use cif_names::Names;
use job_text::MAX_JOB;
use lay_cells::CellId;
use lay_layouts::ItemId;
use lay_oriented::{Directed, oriented_layout};
use lay_point::NoMemory;
use live_run::names_for;
use std::alloc::Global;
use std::io::Write;
use std::sync::Wait;
use std::thread::Threads;

/// What is written of a job.
#[derive(Drop)]
pub(super) struct JobOutput {
    /// The replies, the order and the layout.
    pub(super) finished: Finished,
    /// The names and labels that the layout's symbols had in the job's text, where they keep them.
    pub(super) names: Option<Names>,
    /// How many shapes stay as they were, though all were to be directed.
    pub(super) staying: usize,
    /// What is worth a look in the job.
    pub(super) notes: Notes,
}

/// Runs the job of the bytes, its steps in its own order, directs its layout's shapes and keeps its text's names and
/// labels, where the options say so.
pub(super) fn give_in_turn(
    rt: &(impl Threads + Sync),
    alloc: Global,
    options: Options,
    bytes: &mut Vec<u8>,
) -> Result<JobOutput, JobError>
    requires { length bytes.old.items ≤ MAX_JOB + 1 }
    ensures outcome { AnswersGiven false options.oriented (job_in options.bare bytes.old.items) (finished_part result) }
    ensures names { IfOk result (λ given. given.names
        ≡ names_for (names_in options.named (job_in options.bare bytes.old.items)) given.finished.layout) }
{
    let mut notes = Notes::new(alloc);
    let names = names_in(alloc, options, bytes.as_slice())?;
    let finished = finish_in_turn(rt, alloc, options, bytes, &mut notes)?;
    given_of(alloc, options.oriented, names, finished, notes)
}

/// The same of the job's sessions in threads.
pub(super) fn give_in_threads(
    rt: &(impl Threads + Wait + Sync),
    alloc: Global,
    options: Options,
    bytes: &mut Vec<u8>,
) -> Result<JobOutput, JobError>
    requires { length bytes.old.items ≤ MAX_JOB + 1 }
    ensures outcome { AnswersGiven true options.oriented (job_in options.bare bytes.old.items) (finished_part result) }
    ensures names { IfOk result (λ given. given.names
        ≡ names_for (names_in options.named (job_in options.bare bytes.old.items)) given.finished.layout) }
{
    let mut notes = Notes::new(alloc);
    let names = names_in(alloc, options, bytes.as_slice())?;
    let finished = finish_in_threads(rt, alloc, options, bytes, &mut notes)?;
    given_of(alloc, options.oriented, names, finished, notes)
}

/// Returns what is given out of a job that became this.
fn given_of(
    alloc: Global,
    oriented: bool,
    names: Option<Names>,
    finished: Finished,
    notes: Notes,
) -> Result<JobOutput, JobError>
    ensures outcome { AnswersGivenOf oriented finished (finished_part result) }
    ensures names { IfOk result (λ given. given.names ≡ names_for names given.finished.layout) }
{
    let mut notes = notes;
    let (finished, staying) = directed(alloc, oriented, finished, &mut notes)?;
    let names = names_for(alloc, &names, &finished.layout)?;
    Ok(JobOutput {
        finished,
        names,
        staying,
        notes,
    })
}

/// Directs the layout's shapes where that is asked for. Returns also how many of them stay as they were.
fn directed(
    alloc: Global,
    oriented: bool,
    finished: Finished,
    notes: &mut Notes,
) -> Result<(Finished, usize), JobError>
    ensures { AnswersGivenOf oriented finished (directed_part result) }
{
    if !oriented {
        return Ok((finished, 0));
    }
    let Finished {
        replies,
        order,
        layout,
    } = finished;
    let Directed {
        layout,
        staying,
        first,
    } = oriented_layout(alloc, &layout)?;
    notes.staying = first;
    let finished = Finished {
        replies,
        order,
        layout,
    };
    Ok((finished, staying))
}

/// Appends how many shapes stay as they were, and which the first of them are, where some do.
pub(super) fn put_staying(
    lines: &mut Vec<u8>,
    staying: usize,
    first: &[(CellId, ItemId)],
) -> Result<(), NoMemory> {
    let text = match staying {
        0 => return Ok(()),
        1 => "shape stays as it was",
        _ => "shapes stay as they were",
    };
    write!(
        lines,
        "masklay: {staying} {text}: no path that all readers see alike was found, as where edges cross or it would be too long; the first:"
    )
    .map_err(|_| NoMemory)?;
    for (cell, id) in first {
        put_shape(lines, *cell, *id)?;
    }
    lines.push(b'\n')?;
    Ok(())
}

/// Appends which shape it is.
fn put_shape(lines: &mut Vec<u8>, cell: CellId, id: ItemId) -> Result<(), NoMemory> {
    match cell {
        CellId::Top => write!(lines, " {id} in the top cell"),
        CellId::Symbol(number) => write!(lines, " {id} in symbol {number}"),
    }
    .map_err(|_| NoMemory)
}
