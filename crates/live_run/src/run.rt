//! A live run from the first byte of its input to its end.
ghost use Rattle.std.specs.Prelude.{◌≡◌, ◌+◌, ◌≤◌};
ghost use Rattle.live_run.specs.Devices.{devices, observed_by};
ghost use Rattle.live_run.specs.Feed.{BeginsBehind, FedAll};
ghost use Rattle.live_run.specs.Ending.{IsJournaled, IsLiveRun};

use crate::ending::LiveEnd;
use crate::journal::{Journal, NoJournal, Silent};
use crate::line_feed::LineFeed;
use crate::showing::Showing;
use band_workers::Bands;
use byte_io::{In, Out};
use std::alloc::Global;
use std::thread::Threads;

/// The most reads of an input.
pub const MAX_READS: u32 = 33_554_432;

const _: () = prove!(MAX_READS == 33_554_432);

/// How many bytes are asked for in one read.
const BUFFER: usize = 16_384;

/// Runs the live run of the input's lines on `MAX_SESSIONS` sessions, and answers each as soon as it has come. `bands` finds the
/// edges of Booleans. The layout is shown with the names and labels of the text in front of the live line, and with its shapes
/// directed, where `showing` says so; what the run keeps stays as it is.
///
/// # Cost
///
/// Memory grows with the head of the input, with the longest line, and with what the run keeps: its
/// book, the replies, and the names and labels. Each text with names is in memory before it is written.
pub fn run_live<I: In, O: Out>(
    rt: &(impl Threads + Sync),
    alloc: Global,
    bands: &impl Bands,
    showing: Showing,
    input: &mut I,
    out: &mut O,
) -> LiveEnd
    ensures run { IsLiveRun showing I.remaining I.counts O.written O.failures input.old input.new out.old out.new result }
    ensures reads { (I.counts input.new).reads ≤ (I.counts input.old).reads + MAX_READS }
{
    run_journaled(
        rt,
        alloc,
        bands,
        showing,
        Vec::new(alloc),
        input,
        out,
        &mut NoJournal,
    )
}

/// Runs the live run of the lines that the journal's bytes have whole and then of the input's, where the first are
/// taken again without answers. Each step is kept in the journal before it is answered; without bytes, so are the
/// text and the live line, with which the input begins then. Names and labels are those of the text, which is then the
/// journal's or the input's.
///
/// # Cost
///
/// That of [`run_live`], and of the journal's steps.
pub fn run_journaled<I: In, O: Out, J: Journal>(
    rt: &(impl Threads + Sync),
    alloc: Global,
    bands: &impl Bands,
    showing: Showing,
    bytes: Vec<u8>,
    input: &mut I,
    out: &mut O,
    journal: &mut J,
) -> LiveEnd
    ensures run { IsJournaled showing (observed_by I.remaining I.counts O.written O.failures J.kept J.losses) bytes.items
        (devices input.old out.old journal.old) (devices input.new out.new journal.new) result }
    ensures reads { (I.counts input.new).reads ≤ (I.counts input.old).reads + MAX_READS }
{
    let line_feed = match begin(rt, alloc, bands, showing, bytes) {
        Ok(line_feed) => line_feed,
        Err(end) => return end,
    };
    match feed_all(rt, alloc, bands, showing, line_feed, input, out, journal) {
        Ok(line_feed) => line_feed.end(rt, alloc, bands, showing, out, journal),
        Err(end) => end,
    }
}

/// Returns the run after the lines that the journal's bytes have whole, which are answered to nobody.
fn begin(
    rt: &(impl Threads + Sync),
    alloc: Global,
    bands: &impl Bands,
    showing: Showing,
    bytes: Vec<u8>,
) -> Result<LineFeed, LiveEnd>
    ensures { BeginsBehind showing bytes.items result }
{
    match LineFeed::new(alloc).feed_piece(
        rt,
        alloc,
        bands,
        showing,
        &mut Silent,
        &mut NoJournal,
        &bytes,
    ) {
        Ok(line_feed) => line_feed.begun(alloc),
        Err(end) => Err(end),
    }
}

/// Returns the run at the end of its input, unless it has ended before.
fn feed_all<I: In, O: Out, J: Journal>(
    rt: &(impl Threads + Sync),
    alloc: Global,
    bands: &impl Bands,
    showing: Showing,
    first: LineFeed,
    input: &mut I,
    out: &mut O,
    journal: &mut J,
) -> Result<LineFeed, LiveEnd>
    ensures fed { FedAll showing (observed_by I.remaining I.counts O.written O.failures J.kept J.losses) first
        (devices input.old out.old journal.old) (devices input.new out.new journal.new) result }
    ensures reads { (I.counts input.new).reads ≤ (I.counts input.old).reads + MAX_READS }
{
    let mut line_feed = first;
    let mut buffer = [0; BUFFER];
    for _ in 0..MAX_READS {
        let taken = input.take(&mut buffer)?;
        if taken == 0 {
            return Ok(line_feed);
        }
        match line_feed.feed_piece(rt, alloc, bands, showing, out, journal, &buffer[..taken]) {
            Ok(next) => line_feed = next,
            Err(end) => return Err(end),
        }
    }
    Err(LiveEnd::Device)
}
