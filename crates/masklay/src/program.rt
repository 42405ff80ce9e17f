//! The program as a function of its input: reads the job, runs its steps and writes the answers.
ghost use Rattle.std.specs.Prelude.{◌≡◌, ◌≤◌, ◌+◌, false, length, true};
ghost use Rattle.masklay.specs.Asked.{asked_by, asked_of};
ghost use Rattle.masklay.specs.Output.{
  EndsAsAsked,
  HasOneOutput,
  WritesOrMemory,
  WritesOutput,
  given_output,
  memory_output,
};
ghost use Rattle.masklay.specs.Run.{IsRun, WritesUnread};
ghost use Rattle.masklay.specs.Telling.{MayReport};

mod empty_top;
mod live;
mod named;
mod options;
mod oriented;
mod outcome;
mod output;
mod reading;
mod status;
mod telling;
#[cfg(test)]
mod tests;
mod threads;

use byte_io::{In, Out, put_all};
use job_text::MAX_JOB;
pub use live::{LiveOptions, live};
pub use options::Options;
use oriented::{JobOutput, give_in_threads, give_in_turn};
use outcome::JobError;
use output::{write_given, write_stop};
use reading::{ReadFault, read_all};
pub use status::Status;
use std::alloc::Global;
use std::mem;
use std::sync::Wait;
use std::thread::Threads;
use telling::{report_error, tell_of_input, tell_of_layout};

/// Reads a job from the input, runs it and writes its replies, their order and the CIF text of the
/// layout, all after the last step; or the line that says why there is none. Booleans are rounded in as
/// many threads as there are processors. A fault is reported to `errors` too, in words for a person, and so is a
/// top cell that is empty while the layout has symbols. With `threaded` the sessions run in threads over one
/// desk, the job's own order plays no part, and the order that is written is that of the desk's log. With
/// `oriented` the layout's shapes are directed before it is written, and where some stay as they were that is
/// reported to `errors` too. With neither, the input, `named`, `bare` and `boxed` alone decide the output. With `named`
/// each symbol is written with the names and labels that it had in the job's text, with `bare` the input is a CIF text
/// and no job, and with `boxed` upright rectangles are written as boxes. Where a step is refused, `strict` decides the
/// status alone. The memory of a layout that was written isn't given back, since the program ends there.
pub fn run<I: In, O: Out, E: Out>(
    rt: &(impl Threads + Wait + Sync),
    alloc: Global,
    options: Options,
    input: &mut I,
    out: &mut O,
    errors: &mut E,
) -> Status
    ensures run { IsRun (asked_of options) I.remaining I.counts O.written O.failures
        input.old input.new out.old out.new result }
    ensures told { MayReport E.written E.failures errors.old errors.new result }
    ensures one { HasOneOutput }
{
    if options.threaded {
        return run_in_threads(rt, alloc, options, input, out, errors);
    }
    run_in_turn(rt, alloc, options, input, out, errors)
}

/// What [`run`] does without `threaded`: the steps run one after another in the job's order, and no call waits.
pub fn run_in_turn<I: In, O: Out, E: Out>(
    rt: &(impl Threads + Sync),
    alloc: Global,
    options: Options,
    input: &mut I,
    out: &mut O,
    errors: &mut E,
) -> Status
    ensures run { IsRun (asked_by false options) I.remaining I.counts O.written O.failures
        input.old input.new out.old out.new result }
    ensures told { MayReport E.written E.failures errors.old errors.new result }
    ensures one { HasOneOutput }
{
    match read_all(alloc, input) {
        Ok(bytes) => write_in_turn(rt, alloc, options, bytes, out, errors),
        Err(fault) => write_unread(fault, out, errors),
    }
}

/// What [`run`] does with `threaded`.
fn run_in_threads<I: In, O: Out, E: Out>(
    rt: &(impl Threads + Wait + Sync),
    alloc: Global,
    options: Options,
    input: &mut I,
    out: &mut O,
    errors: &mut E,
) -> Status
    ensures run { IsRun (asked_by true options) I.remaining I.counts O.written O.failures
        input.old input.new out.old out.new result }
    ensures told { MayReport E.written E.failures errors.old errors.new result }
{
    match read_all(alloc, input) {
        Ok(bytes) => write_in_threads(rt, alloc, options, bytes, out, errors),
        Err(fault) => write_unread(fault, out, errors),
    }
}

/// Writes what is to be said where the input wasn't read.
fn write_unread<O: Out, E: Out>(fault: ReadFault, out: &mut O, errors: &mut E) -> Status
    ensures output { WritesUnread O.written O.failures out.old out.new fault result }
    ensures told { MayReport E.written E.failures errors.old errors.new result }
{
    match fault {
        ReadFault::Device => {
            tell_of_input(errors);
            Status::Device
        }
        ReadFault::NoMemory => put_memory(out),
    }
}

/// Writes what the job of the bytes leads to, its steps in its own order.
fn write_in_turn<O: Out, E: Out>(
    rt: &(impl Threads + Sync),
    alloc: Global,
    options: Options,
    bytes: Vec<u8>,
    out: &mut O,
    errors: &mut E,
) -> Status
    requires { length bytes.items ≤ MAX_JOB + 1 }
    ensures output { EndsAsAsked O.written O.failures out.old out.new (asked_by false options) bytes.items result }
    ensures told { MayReport E.written E.failures errors.old errors.new result }
{
    let mut bytes = bytes;
    let given = give_in_turn(rt, alloc, options, &mut bytes);
    write_output(alloc, options, &bytes, given, out, errors)
}

/// Writes what the job of the bytes leads to, its sessions in threads.
fn write_in_threads<O: Out, E: Out>(
    rt: &(impl Threads + Wait + Sync),
    alloc: Global,
    options: Options,
    bytes: Vec<u8>,
    out: &mut O,
    errors: &mut E,
) -> Status
    requires { length bytes.items ≤ MAX_JOB + 1 }
    ensures output { EndsAsAsked O.written O.failures out.old out.new (asked_by true options) bytes.items result }
    ensures told { MayReport E.written E.failures errors.old errors.new result }
{
    let mut bytes = bytes;
    let given = give_in_threads(rt, alloc, options, &mut bytes);
    write_output(alloc, options, &bytes, given, out, errors)
}

/// Writes what is given out, or why there is none; `bytes` are those of the job where it has a fault.
fn write_output<O: Out, E: Out>(
    alloc: Global,
    options: Options,
    bytes: &[u8],
    given: Result<JobOutput, JobError>,
    out: &mut O,
    errors: &mut E,
) -> Status
    ensures output { WritesOrMemory O.written O.failures out.old out.new
        (given_output options.strict options.boxed given) result }
    ensures told { MayReport E.written E.failures errors.old errors.new result }
{
    match given {
        Ok(given) => {
            let status = write_given(alloc, options, &given, out);
            tell_of_layout(alloc, &given, status, errors);
            // The program ends now, and the system takes all its memory at once.
            mem::forget(given);
            status
        }
        Err(stop) => {
            let status = write_stop(alloc, stop, out);
            report_error(alloc, options.bare, bytes, stop, status, errors);
            status
        }
    }
}

/// Writes the line for a refused growth of memory, which can stand in place of any output.
pub fn put_memory<O: Out>(out: &mut O) -> Status
    ensures { WritesOutput O.written O.failures out.old out.new memory_output result }
{
    put(out, b"out of memory\n", Status::Memory)
}

/// Writes the text, and returns the status that goes with it, or that of a failed device.
pub fn put<O: Out>(out: &mut O, text: &[u8], status: Status) -> Status
    ensures { WritesOutput O.written O.failures out.old out.new
        (record { text = text.now; status = status }) result }
{
    match put_all(out, text) {
        Ok(()) => status,
        Err(_) => Status::Device,
    }
}
