//! The feeding of a live run: bytes, as they come, put together to lines.
ghost use Rattle.std.specs.Prelude.{◌≡◌, ◌∷◌, []};
ghost use Rattle.live_run.specs.Course.{InHead, phase_of};
ghost use Rattle.live_run.specs.Feed.{BegunTo, EndTo, LastTo, PieceTo};

use crate::base::unopened;
use crate::course::Course;
use crate::ending::LiveEnd;
use crate::journal::Journal;
use crate::showing::Showing;
use band_workers::Bands;
use byte_io::Out;
use lay_point::NoMemory;
use std::alloc::Global;
use std::thread::Threads;

/// A live run that is handed its input piece by piece. Contracts see where it stands between two bytes.
#[derive(Drop)]
pub struct LineFeed {
    /// Where it stands between two lines.
    pub(crate) course: Course,
    /// What has come of the next line, without a newline.
    pub(crate) line: Vec<u8>,
}

impl LineFeed {
    /// Returns a run before its first byte.
    pub fn new(alloc: Global) -> LineFeed
        ensures line { result.line.items ≡ [] }
        ensures course { phase_of result.course ≡ InHead [] 0 }
    {
        LineFeed {
            course: Course::Head(Vec::new(alloc), 0),
            line: Vec::new(alloc),
        }
    }

    /// Returns the run after these bytes. Each whole line of the bytes so far is kept and answered then: its answer and all
    /// before it are with the device. `bands` finds the edges of Booleans; `showing` is the same at each call of a run.
    ///
    /// # Errors
    ///
    /// The run's end, if it ends in these bytes: as `run_live`'s, but for `Done`.
    ///
    /// # Cost
    ///
    /// That of the lines' steps.
    pub fn feed_piece<O: Out, J: Journal>(
        self,
        rt: &(impl Threads + Sync),
        alloc: Global,
        bands: &impl Bands,
        showing: Showing,
        out: &mut O,
        journal: &mut J,
        piece: &[u8],
    ) -> Result<LineFeed, LiveEnd>
        ensures { PieceTo showing O.written O.failures J.kept J.losses (out.old, journal.old) (out.new, journal.new) self piece.now result }
    {
        let mut line_feed = self;
        for byte in piece {
            match line_feed.feed_byte(rt, alloc, bands, showing, out, journal, *byte) {
                Ok(next) => line_feed = next,
                Err(end) => return Err(end),
            }
        }
        Ok(line_feed)
    }

    /// Returns the run after the whole lines that it was fed, from its journal: what has come of the next is dropped.
    pub(crate) fn begun(self, alloc: Global) -> Result<LineFeed, LiveEnd>
        ensures { BegunTo self result }
    {
        let LineFeed { course, .. } = self;
        match course {
            Course::Head(text, count) => {
                if count == 0 {
                    return Ok(LineFeed::new(alloc));
                }
                let number = count.checked_add(1).ok_or(NoMemory)?;
                Err(unopened(alloc, text, number))
            }
            Course::Steps(live) => Ok(LineFeed {
                course: Course::Steps(live),
                line: Vec::new(alloc),
            }),
        }
    }

    /// Returns the run after a byte.
    fn feed_byte<O: Out, J: Journal>(
        self,
        rt: &(impl Threads + Sync),
        alloc: Global,
        bands: &impl Bands,
        showing: Showing,
        out: &mut O,
        journal: &mut J,
        byte: u8,
    ) -> Result<LineFeed, LiveEnd>
        ensures { PieceTo showing O.written O.failures J.kept J.losses (out.old, journal.old) (out.new, journal.new) self
            (byte ∷ []) result }
    {
        let LineFeed { course, line } = self;
        let mut line = line;
        line.push(byte).map_err(|_| NoMemory)?;
        if byte != b'\n' {
            return Ok(LineFeed { course, line });
        }
        match course.feed(rt, alloc, bands, showing, out, journal, line.as_slice()) {
            Ok(course) => {
                line.clear();
                Ok(LineFeed { course, line })
            }
            Err(end) => Err(end),
        }
    }

    /// Ends the run, once the input has ended: a last line without newline is answered too, and order and layout are written.
    pub fn end<O: Out, J: Journal>(
        self,
        rt: &(impl Threads + Sync),
        alloc: Global,
        bands: &impl Bands,
        showing: Showing,
        out: &mut O,
        journal: &mut J,
    ) -> LiveEnd
        ensures { EndTo showing O.written O.failures J.kept J.losses (out.old, journal.old) (out.new, journal.new) self result }
    {
        match self.feed_last(rt, alloc, bands, showing, out, journal) {
            Ok(course) => course.close(alloc, out),
            Err(end) => end,
        }
    }

    /// Returns the course after the last line, which may have no newline.
    fn feed_last<O: Out, J: Journal>(
        self,
        rt: &(impl Threads + Sync),
        alloc: Global,
        bands: &impl Bands,
        showing: Showing,
        out: &mut O,
        journal: &mut J,
    ) -> Result<Course, LiveEnd>
        ensures { LastTo showing O.written O.failures J.kept J.losses (out.old, journal.old) (out.new, journal.new) self result }
    {
        if self.line.is_empty() {
            return Ok(self.course);
        }
        self.course.feed(
            rt,
            alloc,
            bands,
            showing,
            out,
            journal,
            self.line.as_slice(),
        )
    }
}
