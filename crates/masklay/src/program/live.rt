//! A live run: steps in lines, each answered before the next is read.
ghost use Rattle.std.specs.Prelude.{◌≡◌, ◌+◌, ◌≤◌};
ghost use Rattle.live_run.specs.Devices.{devices, observed_by};
ghost use Rattle.live_run.specs.Ending.{IsJournaled};
ghost use Rattle.live_run.specs.declared.run.TheConstants.{MAX_READS};
ghost use Rattle.masklay.specs.Live.{IsLive, WritesLiveEnd, live_ending};
ghost use Rattle.masklay.specs.Telling.{MayReport};

use crate::program::outcome::JobError;
use crate::program::output::write_stop;
use crate::program::put_memory;
use crate::program::status::Status;
use crate::program::telling::{report_error, tell_of_head, tell_of_journal, tell_of_notes};
use band_workers::{OneBand, ScopedBands, Workers};
use byte_io::{In, Out};
use live_run::{Journal, LiveEnd, Showing, run_journaled};
use std::alloc::Global;
use std::thread::Threads;

/// What a live run is asked for.
#[derive(Clone, Copy, Debug, PartialEq, Eq)]
pub struct LiveOptions {
    /// How many threads find the edges of an operation.
    pub workers: u8,
    /// Whether the run ends with a status of its own where a step was refused.
    pub strict: bool,
    /// With which names and labels the layout is written, and whether its shapes are directed.
    pub showing: Showing,
}

/// Reads a CIF text, then steps of sessions on its layout in lines, and answers each before more is read; at the
/// end of the input it writes the order of the steps and the CIF text of the layout that they led to. Each layout is written as
/// `showing` says. The lines that the
/// journal's bytes have whole come first and aren't answered; the steps after them are kept in it. A fault of
/// the text is reported to `errors` too, and so is what [`run`](crate::program::run) reports of shapes and names.
pub fn live<I: In, O: Out, E: Out, J: Journal>(
    rt: &(impl Threads + Sync),
    alloc: Global,
    options: LiveOptions,
    bytes: Vec<u8>,
    input: &mut I,
    out: &mut O,
    errors: &mut E,
    journal: &mut J,
) -> Status
    ensures run { IsLive options.strict options.showing (observed_by I.remaining I.counts O.written O.failures J.kept J.losses)
        bytes.items (devices input.old out.old journal.old) (devices input.new out.new journal.new) result }
    ensures told { MayReport E.written E.failures errors.old errors.new result }
{
    let end = answer_lines(rt, alloc, options, bytes, input, out, journal);
    let status = close(alloc, options.strict, &end, out);
    tell_of_end(alloc, &end, status, errors);
    status
}

/// Answers the lines, with as many workers as are asked for.
fn answer_lines<I: In, O: Out, J: Journal>(
    rt: &(impl Threads + Sync),
    alloc: Global,
    options: LiveOptions,
    bytes: Vec<u8>,
    input: &mut I,
    out: &mut O,
    journal: &mut J,
) -> LiveEnd
    ensures run { IsJournaled options.showing (observed_by I.remaining I.counts O.written O.failures J.kept J.losses)
        bytes.items (devices input.old out.old journal.old) (devices input.new out.new journal.new) result }
    ensures reads { (I.counts input.new).reads ≤ (I.counts input.old).reads + MAX_READS }
{
    let showing = options.showing;
    if options.workers < 2 {
        return run_journaled(rt, alloc, &OneBand, showing, bytes, input, out, journal);
    }
    let bands = ScopedBands::of(Workers::nearest(options.workers));
    run_journaled(rt, alloc, &bands, showing, bytes, input, out, journal)
}

/// Writes what comes after the answers of a run that ended so.
fn close<O: Out>(alloc: Global, strict: bool, end: &LiveEnd, out: &mut O) -> Status
    ensures { WritesLiveEnd strict O.written O.failures out.old out.new end.now result }
{
    match end {
        LiveEnd::Done { has_refused, .. } => live_ending(strict, *has_refused),
        LiveEnd::Job { line, .. } => write_stop(alloc, JobError::JobFault(*line), out),
        LiveEnd::Cif { fault, .. } => write_stop(alloc, JobError::CifFault(*fault), out),
        LiveEnd::Device | LiveEnd::Journal => Status::Device,
        LiveEnd::Memory => put_memory(out),
    }
}

/// Returns the status of a run whose lines are all answered.
fn live_ending(strict: bool, has_refused: bool) -> Status
    ensures { result ≡ live_ending strict has_refused }
{
    if strict && has_refused {
        return Status::Refused;
    }
    Status::Done
}

/// Tells of a fault of the text, where the program ends with the status of one, of a journal that failed, and of the layout at
/// the end.
fn tell_of_end<E: Out>(alloc: Global, end: &LiveEnd, status: Status, errors: &mut E)
    ensures { MayReport E.written E.failures errors.old errors.new status }
{
    match end {
        LiveEnd::Job { line, text } => tell_of_head(alloc, text, *line, status, errors),
        LiveEnd::Cif { fault, text } => {
            report_error(
                alloc,
                false,
                text,
                JobError::CifFault(*fault),
                status,
                errors,
            );
        }
        LiveEnd::Journal => tell_of_journal(status, errors),
        LiveEnd::Done { notes, .. } => tell_of_notes(alloc, notes, status, errors),
        LiveEnd::Device | LiveEnd::Memory => {}
    }
}
