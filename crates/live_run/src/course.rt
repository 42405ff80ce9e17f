//! The course of a live run, line by line.
ghost use Rattle.std.specs.Prelude.{◌≡◌, ◌+◌};
ghost use Rattle.live_run.specs.Live.{after_line, run_of, said_of};
ghost use Rattle.live_run.specs.Cif.{is_live};
ghost use Rattle.live_run.specs.Course.{
  AnswersTo,
  ClosesTo,
  GivesTo,
  HeadTo,
  FeedsTo,
  KeepsTo,
  LiveTo,
  PutsClosing,
  RunCloses,
  phase_of,
};
ghost use Rattle.live_run.specs.Journal.{entries_by, kept_as, kept_head, kept_line};

use crate::base::{head_end, open_run, unopened};
use crate::ending::{EndNotes, LiveEnd};
use crate::journal::Journal;
use crate::live::{Answer, Keeping, Live};
use crate::put::{put_shown, seen_in, shown_in};
use crate::showing::{Showing, seen, shown};
use band_workers::Bands;
use byte_io::Out;
use cif_write::WriteFault;
use lay_oriented::Directed;
use lay_point::NoMemory;
use std::alloc::Global;
use std::thread::Threads;

/// Where a run stands between two lines. Contracts see its `phase_of`.
#[derive(Drop)]
pub enum Course {
    /// Before the live line: the lines so far, and how many they are.
    Head(Vec<u8>, u32),
    /// After it.
    Steps(Live),
}

impl Course {
    /// Returns the course after a line, which is kept and answered at once.
    pub(crate) fn feed<O: Out, J: Journal>(
        self,
        rt: &(impl Threads + Sync),
        alloc: Global,
        bands: &impl Bands,
        showing: Showing,
        out: &mut O,
        journal: &mut J,
        line: &[u8],
    ) -> Result<Course, LiveEnd>
        ensures { FeedsTo showing O.written O.failures J.kept J.losses (out.old, journal.old) (out.new, journal.new)
            (phase_of self) line.now result }
    {
        match self {
            Course::Head(text, count) => feed_head(alloc, showing, text, count, journal, line),
            Course::Steps(live) => feed_step(rt, alloc, bands, out, journal, live, line),
        }
    }

    /// Ends the run, once the input has ended.
    pub(crate) fn close<O: Out>(self, alloc: Global, out: &mut O) -> LiveEnd
        ensures { ClosesTo O.written O.failures out.old out.new (phase_of self) result }
    {
        match self {
            Course::Head(text, count) => match count.checked_add(1) {
                Some(number) => unopened(alloc, text, number),
                None => LiveEnd::Memory,
            },
            Course::Steps(live) => close_run(alloc, out, live),
        }
    }
}

/// Returns whether steps begin after the line.
fn is_live(line: &[u8]) -> bool
    ensures { result ≡ is_live line.now }
{
    line.starts_with("%live".as_bytes())
}

/// Returns the course after a line that follows these others, none of which is live.
fn feed_head<J: Journal>(
    alloc: Global,
    showing: Showing,
    text: Vec<u8>,
    count: u32,
    journal: &mut J,
    line: &[u8],
) -> Result<Course, LiveEnd>
    ensures { HeadTo showing J.kept J.losses journal.old journal.new (is_live line.now) text.items count line.now result }
{
    let number = count.checked_add(1).ok_or(NoMemory)?;
    if is_live(line) {
        return feed_live(alloc, showing, text, number, journal, line);
    }
    let mut text = text;
    text.extend_from_slice(line).map_err(|_| NoMemory)?;
    Ok(Course::Head(text, number))
}

/// Returns the course after a live line of this number, which is kept after its head where a run begins.
fn feed_live<J: Journal>(
    alloc: Global,
    showing: Showing,
    text: Vec<u8>,
    number: u32,
    journal: &mut J,
    line: &[u8],
) -> Result<Course, LiveEnd>
    ensures { LiveTo showing J.kept J.losses journal.old journal.new text.items number line.now result }
{
    match open_run(alloc, showing, text.as_slice(), number) {
        Ok(live) => {
            keep_head(journal, text.as_slice(), line)?;
            Ok(Course::Steps(live))
        }
        Err(fault) => Err(head_end(fault, text)),
    }
}

/// Keeps the head of a run and its live line.
fn keep_head<J: Journal>(journal: &mut J, head: &[u8], line: &[u8]) -> Result<(), LiveEnd>
    ensures { KeepsTo J.kept J.losses journal.old journal.new (kept_head head.now line.now) result }
{
    journal.keep(head, false)?;
    journal.keep(line, true)?;
    Ok(())
}

/// Keeps a line, where it is to be kept, or tells that it says nothing.
fn keep_line<J: Journal>(journal: &mut J, keeping: Keeping, line: &[u8]) -> Result<(), LiveEnd>
    ensures { KeepsTo J.kept J.losses journal.old journal.new (entries_by (kept_as keeping) line.now) result }
{
    match keeping {
        Keeping::No => Ok(()),
        Keeping::Line(is_flushed) => Ok(journal.keep(line, is_flushed)?),
        Keeping::Unknown(number) => {
            journal.tell(line, number);
            Ok(())
        }
    }
}

/// Returns the course after a line of a run, which is kept and then answered. All that takes memory comes before it is kept.
fn feed_step<O: Out, J: Journal>(
    rt: &(impl Threads + Sync),
    alloc: Global,
    bands: &impl Bands,
    out: &mut O,
    journal: &mut J,
    live: Live,
    line: &[u8],
) -> Result<Course, LiveEnd>
    ensures { AnswersTo O.written O.failures J.kept J.losses (out.old, journal.old) (out.new, journal.new)
        (after_line (run_of live) line.now) (kept_line line.now) result }
{
    let (live, answer) = live.answer(rt, alloc, line, bands)?;
    match give_answer(alloc, out, journal, &live, answer, line) {
        Ok(()) => Ok(Course::Steps(live)),
        Err(end) => Err(end),
    }
}

/// Keeps a line of a run, which stands so now, and then writes its answer. All that takes memory comes before it is kept.
fn give_answer<O: Out, J: Journal>(
    alloc: Global,
    out: &mut O,
    journal: &mut J,
    live: &Live,
    answer: Answer,
    line: &[u8],
) -> Result<(), LiveEnd>
    ensures { GivesTo O.written O.failures J.kept J.losses (out.old, journal.old) (out.new, journal.new)
        (run_of live.now, said_of answer) (entries_by (kept_as answer.keeping) line.now) result }
{
    let seen = seen_in(alloc, &answer, live.view(), live.layout())?;
    let Answer {
        comment,
        keeping,
        ..
    } = answer;
    let (bytes, layout) = shown_in(alloc, &live.view().names, comment, &seen)?;
    keep_line(journal, keeping, line)?;
    match put_shown(out, bytes.as_slice(), layout) {
        Ok(()) => Ok(()),
        Err(_) => Err(LiveEnd::Device),
    }
}

/// Writes what a run has to say at its end.
fn close_run<O: Out>(alloc: Global, out: &mut O, live: Live) -> LiveEnd
    ensures { RunCloses O.written O.failures out.old out.new (run_of live) result }
{
    let has_refused = live.has_refused();
    match put_closing(alloc, out, live) {
        Ok(notes) => LiveEnd::Done { has_refused, notes },
        Err(WriteFault::Device) => LiveEnd::Device,
        Err(WriteFault::NoMemory) => LiveEnd::Memory,
    }
}

/// Writes the order of a run's steps, and the layout at its end. Returns what there is to tell of the layout.
fn put_closing<O: Out>(alloc: Global, out: &mut O, live: Live) -> Result<EndNotes, WriteFault>
    ensures { PutsClosing O.written O.failures out.old out.new (run_of live) result }
{
    let (order, layout, view) = live.end(alloc)?;
    let Directed {
        layout,
        staying,
        first,
    } = seen(alloc, view.oriented, &layout)?;
    let (bytes, text) = shown(alloc, &view.names, order, &layout)?;
    put_shown(out, bytes.as_slice(), text)?;
    Ok(EndNotes {
        staying,
        first,
        left_out: view.left_out(),
    })
}
