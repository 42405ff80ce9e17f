//! What is written of a job's outcome. All that takes memory comes before the first byte.
ghost use Rattle.std.specs.Prelude.{◌≡◌, ◌++◌, IfOk, None, Some, false};
ghost use Rattle.job_text.specs.Order.{order_text};
ghost use Rattle.job_text.specs.Replies.{replies_text};
ghost use Rattle.masklay.specs.Output.{
  WritesOrMemory,
  WritesOutput,
  cif_fault_text,
  desk_fault_text,
  written_output,
};
ghost use Rattle.live_run.specs.Live.{is_refusal};
ghost use Rattle.live_run.specs.Shown.{layout_text};
ghost use Rattle.masklay.specs.Output.{ending_of, job_fault_text, stop_output};
ghost use Rattle.std.specs.List.{list_any};

use crate::program::options::Options;
use crate::program::oriented::JobOutput;
use crate::program::outcome::{Finished, JobError};
use crate::program::status::Status;
use crate::program::{put, put_memory};
use byte_io::Out;
use cif_names::Names;
use cif_read::CifFault;
use cif_write::{Prepared, prepare};
use job_text::{comments, put_comments};
use lay_point::{NoMemory, Sequence};
use live_run::{is_refusal, named_bytes, put_layout};
use session_steps::Reply;
use std::alloc::Global;
use std::io::Write;

/// Writes the replies, the order and the layout, with the names and labels in it if there are any.
/// Where the run is `strict`, the status tells of a refused step.
pub(super) fn write_given<O: Out>(
    alloc: Global,
    options: Options,
    given: &JobOutput,
    out: &mut O,
) -> Status
    ensures { WritesOrMemory O.written O.failures out.old out.new
        (written_output options.strict options.boxed given.now.names given.now.finished) result }
{
    match &given.names {
        None => write_finished(options, &given.finished, out),
        Some(names) => write_named(alloc, options, names, &given.finished, out),
    }
}

/// Writes the replies, the order and the layout.
fn write_finished<O: Out>(options: Options, finished: &Finished, out: &mut O) -> Status
    ensures { WritesOrMemory O.written O.failures out.old out.new
        (written_output options.strict options.boxed None finished.now) result }
{
    let ending = ending_of(options.strict, finished.replies.as_slice());
    match prepare(&finished.layout) {
        Ok(layout) => put_finished(finished, &layout, options.boxed, ending, out),
        Err(NoMemory) => put_memory(out),
    }
}

/// Writes the replies, the order and the layout with the names and labels in it.
fn write_named<O: Out>(
    alloc: Global,
    options: Options,
    names: &Names,
    finished: &Finished,
    out: &mut O,
) -> Status
    ensures { WritesOrMemory O.written O.failures out.old out.new
        (written_output options.strict options.boxed (Some names.now) finished.now) result }
{
    let ending = ending_of(options.strict, finished.replies.as_slice());
    match all_named(alloc, options.boxed, names, finished) {
        Ok(bytes) => put(out, &bytes, ending),
        Err(NoMemory) => put_memory(out),
    }
}

/// Returns the status of a run all of whose output is written, and whose sessions were answered so.
fn ending_of(strict: bool, sessions: &[Sequence<Reply>]) -> Status
    ensures { result ≡ ending_of strict sessions.now }
{
    if strict && has_refusal(sessions) {
        return Status::Refused;
    }
    Status::Done
}

/// Returns whether a step of a session was refused.
fn has_refusal(sessions: &[Sequence<Reply>]) -> bool
    ensures { result ≡ list_any (list_any is_refusal) sessions.now }
{
    sessions
        .iter()
        .any(|replies| is_one_refused(replies.as_slice()))
}

/// Returns whether a step was refused.
fn is_one_refused(replies: &[Reply]) -> bool
    ensures { result ≡ list_any is_refusal replies.now }
{
    replies.iter().any(|reply| is_refusal(reply))
}

/// Returns the replies, the order and the layout with the names and labels in it.
fn all_named(
    alloc: Global,
    boxed: bool,
    names: &Names,
    finished: &Finished,
) -> Result<Vec<u8>, NoMemory>
    ensures { IfOk result (λ bytes. bytes.items
        ≡ (written_output false boxed (Some names.now) finished.now).text) }
{
    let layout = prepare(&finished.layout)?;
    let text = named_bytes(alloc, boxed, names, &layout)?;
    let mut bytes = comments(
        alloc,
        finished.replies.as_slice(),
        finished.order.as_slice(),
    )?;
    bytes.extend_from_slice(&text)?;
    Ok(bytes)
}

/// Writes the replies, the order and then this layout. Returns the status `ending` where all was written.
fn put_finished<O: Out>(
    finished: &Finished,
    layout: &Prepared<'_>,
    boxed: bool,
    ending: Status,
    out: &mut O,
) -> Status
    ensures { WritesOutput O.written O.failures out.old out.new
        (record {
          text = (replies_text finished.now.replies ++ order_text finished.now.order) ++ layout_text boxed layout.now;
          status = ending;
        }) result }
{
    let replies = finished.replies.as_slice();
    let order = finished.order.as_slice();
    if put_comments(out, replies, order).is_err() || put_layout(layout, boxed, out).is_err() {
        return Status::Device;
    }
    ending
}

/// Writes the line that says why there is no layout.
pub(super) fn write_stop<O: Out>(alloc: Global, stop: JobError, out: &mut O) -> Status
    ensures { WritesOrMemory O.written O.failures out.old out.new (stop_output stop) result }
{
    match stop_text(alloc, stop) {
        Ok((text, status)) => put(out, &text, status),
        Err(NoMemory) => put_memory(out),
    }
}

/// Returns the line that says why there is no layout, and the status with which the program then ends.
fn stop_text(alloc: Global, stop: JobError) -> Result<(Vec<u8>, Status), NoMemory>
    ensures { IfOk result (λ line. record { text = line.0.items; status = line.1 } ≡ stop_output stop) }
{
    match stop {
        JobError::JobFault(line) => Ok((job_fault_text(alloc, line)?, Status::Job)),
        JobError::CifFault(fault) => Ok((cif_fault_text(alloc, fault)?, Status::Cif)),
        JobError::DeskFault => Ok((desk_fault_text(alloc)?, Status::Desk)),
        JobError::NoMemory => Err(NoMemory),
    }
}

/// The line of a job's fault.
#[tactic(auto, unfolding(crate::specs::Output::job_fault_text))]
fn job_fault_text(alloc: Global, line: u32) -> Result<Vec<u8>, NoMemory>
    ensures { IfOk result (λ bytes. bytes.items ≡ job_fault_text line) }
{
    let mut bytes = Vec::new(alloc);
    write!(bytes, "job fault at line {line}\n").map_err(|_| NoMemory)?;
    Ok(bytes)
}

/// The line of a desk's fault.
fn desk_fault_text(alloc: Global) -> Result<Vec<u8>, NoMemory>
    ensures { IfOk result (λ bytes. bytes.items ≡ desk_fault_text) }
{
    let mut bytes = Vec::new(alloc);
    bytes.extend_from_slice(b"desk fault\n")?;
    Ok(bytes)
}

/// The line of a CIF text's fault.
#[tactic(auto, unfolding(crate::specs::Output::cif_fault_text))]
fn cif_fault_text(alloc: Global, fault: CifFault) -> Result<Vec<u8>, NoMemory>
    ensures { IfOk result (λ bytes. bytes.items ≡ cif_fault_text fault) }
{
    let (number, name, offset) = (fault.kind.number(), fault.kind.name(), fault.offset);
    let mut bytes = Vec::new(alloc);
    write!(bytes, "cif fault {number} {name} at {offset}\n").map_err(|_| NoMemory)?;
    Ok(bytes)
}
