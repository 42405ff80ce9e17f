//! What is reported to a person on standard error.
ghost use Rattle.std.specs.Prelude.{◌≡◌};
ghost use Rattle.masklay.specs.Telling.{IsReported, MayReport, may_tell};
ghost use Rattle.masklay.specs.declared.program.status.Status.TheVariants.{Device};

use crate::program::empty_top::put_advice_on_top;
use crate::program::named::{left_out_of, put_left_out};
use crate::program::oriented::{JobOutput, put_staying};
use crate::program::outcome::JobError;
use crate::program::status::Status;
use byte_io::{Out, put_all};
use job_advice::{of_cif_fault, of_job_fault, of_live_fault, of_refusals, of_text_fault};
use lay_point::NoMemory;
use live_run::EndNotes;
use std::alloc::Global;

/// What is said where the input can't be read.
const NOT_READ: &[u8] = b"masklay: the input can't be read to its end\n";

/// What is said where the output can't be written.
const NOT_WRITTEN: &[u8] =
    b"masklay: the output can't be written; what was written so far is the beginning of it\n";

/// What is said where the journal can't be written.
const NOT_KEPT: &[u8] =
    b"masklay: the journal can't be written; each step that was answered is in it, and the last one isn't answered\n";

/// Tells that the input can't be read.
pub(super) fn tell_of_input<E: Out>(errors: &mut E)
    ensures { MayReport E.written E.failures errors.old errors.new Device }
{
    tell(NOT_READ, Status::Device, errors);
}

/// Tells that the journal can't be written, where the program ends with this status.
pub(super) fn tell_of_journal<E: Out>(status: Status, errors: &mut E)
    ensures { MayReport E.written E.failures errors.old errors.new status }
{
    tell(NOT_KEPT, status, errors);
}

/// Tells why there is no layout, where the program ends with the status of a fault. The bytes are a job or, where they are
/// `bare`, a CIF text. What the device doesn't take, or memory doesn't hold, isn't told.
pub(super) fn report_error<E: Out>(
    alloc: Global,
    bare: bool,
    job: &[u8],
    stop: JobError,
    status: Status,
    errors: &mut E,
)
    ensures { MayReport E.written E.failures errors.old errors.new status }
{
    if status == Status::Device {
        return tell(NOT_WRITTEN, status, errors);
    }
    let advice = match stop {
        JobError::JobFault(line) => of_job_fault(alloc, job, line),
        JobError::CifFault(fault) if bare => of_text_fault(alloc, job, fault),
        JobError::CifFault(fault) => of_cif_fault(alloc, job, fault),
        JobError::DeskFault => Ok(Vec::new(alloc)),
        JobError::NoMemory => Err(NoMemory),
    };
    if let Ok(lines) = advice {
        tell(&lines, status, errors);
    }
}

/// Tells why no live run begins after this head, which is refused at that line.
pub(super) fn tell_of_head<E: Out>(
    alloc: Global,
    head: &[u8],
    line: u32,
    status: Status,
    errors: &mut E,
)
    ensures { MayReport E.written E.failures errors.old errors.new status }
{
    if status == Status::Device {
        return tell(NOT_WRITTEN, status, errors);
    }
    if let Ok(lines) = of_live_fault(alloc, head, line) {
        tell(&lines, status, errors);
    }
}

/// Tells of refused steps, where all was written, that a step names the top cell and it is empty, how many shapes stay
/// as they were though all were to be directed, how many names and labels are left out, and what is worth a look in the text.
pub(super) fn tell_of_layout<E: Out>(
    alloc: Global,
    given: &JobOutput,
    status: Status,
    errors: &mut E,
)
    ensures { MayReport E.written E.failures errors.old errors.new status }
{
    if status == Status::Device {
        return tell(NOT_WRITTEN, status, errors);
    }
    if let Ok(lines) = advice_on_layout(alloc, given) {
        tell(&lines, status, errors);
    }
}

/// Says what there is to say of a layout that is written.
fn advice_on_layout(alloc: Global, given: &JobOutput) -> Result<Vec<u8>, NoMemory> {
    let mut lines = of_refusals(alloc, given.finished.replies.as_slice())?;
    if given.notes.names_top {
        put_advice_on_top(alloc, &mut lines, &given.finished.layout)?;
    }
    lines.extend_from_slice(given.notes.text.as_slice())?;
    put_staying(&mut lines, given.staying, given.notes.staying.as_slice())?;
    put_left_out(&mut lines, left_out_of(&given.names))?;
    Ok(lines)
}

/// Tells how many shapes stay as they were though all were to be directed, and how many names and labels are left out, at the end
/// of a live run.
pub(super) fn tell_of_notes<E: Out>(alloc: Global, notes: &EndNotes, status: Status, errors: &mut E)
    ensures { MayReport E.written E.failures errors.old errors.new status }
{
    if let Ok(lines) = advice_on_notes(alloc, notes) {
        tell(&lines, status, errors);
    }
}

/// Says what there is to say of the layout at the end of a live run.
fn advice_on_notes(alloc: Global, notes: &EndNotes) -> Result<Vec<u8>, NoMemory> {
    let mut lines = Vec::new(alloc);
    put_staying(&mut lines, notes.staying, notes.first.as_slice())?;
    put_left_out(&mut lines, notes.left_out)?;
    Ok(lines)
}

/// Writes the lines where the program ends with a status of which there may be something to tell.
fn tell<E: Out>(lines: &[u8], status: Status, errors: &mut E)
    ensures { MayReport E.written E.failures errors.old errors.new status }
{
    if may_tell(status) && !lines.is_empty() {
        put_words(lines, errors);
    }
}

/// Whether a run that ends so may have something to tell.
fn may_tell(status: Status) -> bool
    ensures { result ≡ may_tell status }
{
    match status {
        Status::Done | Status::Job | Status::Cif | Status::Device | Status::Refused => true,
        Status::CommandLine | Status::Memory | Status::Desk => false,
    }
}

/// Writes the lines, as far as the device takes them.
fn put_words<E: Out>(lines: &[u8], errors: &mut E)
    ensures { IsReported E.written E.failures errors.old errors.new lines.now }
{
    match put_all(errors, lines) {
        Ok(()) => {}
        Err(_) => {}
    }
}
