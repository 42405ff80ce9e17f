//! The sessions of a live run, and what its lines are answered.
ghost use Rattle.std.specs.Prelude.{◌≡◌, ◌+◌, [], IfOk, Some, false, replicate, slice_index, slice_set};
ghost use Rattle.session_steps.specs.Turns.{dealt};
ghost use Rattle.job_text.specs.Live.{live_line};
ghost use Rattle.job_text.specs.Order.{order_of, order_text};
ghost use Rattle.job_text.specs.Words.{words_of};
ghost use Rattle.live_run.specs.declared.live.Keeping.TheVariants.{No};
ghost use Rattle.live_run.specs.Journal.{is_lasting, kept_as, keeping_of};
ghost use Rattle.live_run.specs.Live.{
  after_line,
  after_step,
  before_first_line,
  has_refused,
  is_refusal,
  one_more,
  run_of,
  said_of,
};

use crate::showing::View;
use band_workers::Bands;
use job_text::{LiveLine, comments, live_line, order_of, reply_line, unknown_line};
use lay_items::Snapshot;
use lay_point::NoMemory;
use live_questions::answer;
use session_core::{Machine, is_memory};
use session_steps::{Reply, Step, dealt};
use std::alloc::Global;
use std::thread::Threads;
use undo_rules::MAX_SESSIONS;

/// What a line is answered.
#[derive(Debug, Drop)]
pub struct Answer {
    /// A comment, or nothing.
    pub comment: Vec<u8>,
    /// Whether the layout is wanted, as it is now.
    pub is_layout_wanted: bool,
    /// Whether the line is kept in a journal.
    pub keeping: Keeping,
}

/// What becomes of a line in a journal.
#[derive(Clone, Copy, Debug, PartialEq, Eq)]
pub enum Keeping {
    /// It isn't kept.
    No,
    /// It is kept, and with `true` flushed to the disk, before it is answered.
    Line(bool),
    /// It says nothing that a run takes, and has this number.
    Unknown(u64),
}

impl Answer {
    /// Returns the answer of this comment, to a line that isn't kept.
    fn new(comment: Vec<u8>) -> Answer
        ensures said { said_of result ≡ (comment.items, false) }
        ensures keeping { result.keeping ≡ No }
    {
        Answer {
            comment,
            is_layout_wanted: false,
            keeping: Keeping::No,
        }
    }
}

/// A live run. Contracts see the state of its machine, the steps' sessions and replies so far, how many
/// lines came, and how its layout is shown (`run_of`).
#[derive(Drop)]
pub struct Live {
    machine: Machine,
    sessions: Vec<u8>,
    replies: Vec<Reply>,
    /// How many steps each session took, by its number.
    taken: Vec<u64>,
    lines: u64,
    /// How the layout is shown.
    view: View,
}

impl Live {
    /// Returns a run on this layout, before its first line, which shows the layout so.
    ///
    /// # Errors
    ///
    /// `NoMemory`, if an allocation fails.
    pub fn new(alloc: Global, base: Snapshot, view: View) -> Result<Live, NoMemory>
        ensures { IfOk result (λ run. run_of run ≡ before_first_line view base) }
    {
        Ok(Live {
            machine: Machine::new(alloc, base, MAX_SESSIONS)?,
            sessions: Vec::new(alloc),
            replies: Vec::new(alloc),
            taken: vec![in alloc; 0; usize::from(MAX_SESSIONS) + 1]?,
            lines: 0,
            view,
        })
    }

    /// The layout as it is now.
    pub fn layout(&self) -> &Snapshot
        ensures { result.now ≡ self.now.machine.history.layout }
    {
        self.machine.book().snapshot()
    }

    /// How it is shown.
    pub(crate) fn view(&self) -> &View
        ensures { result.now ≡ self.now.view }
    {
        &self.view
    }

    /// Returns the run after a line, and what the line is answered. `bands` finds the edges of Booleans. Out
    /// of memory the run is at its end.
    ///
    /// # Errors
    ///
    /// `NoMemory`, if an allocation fails.
    ///
    /// # Cost
    ///
    /// That of the step.
    #[tactic(auto, unfolding(crate::specs::Live::after_line))]
    pub fn answer(
        self,
        rt: &(impl Threads + Sync),
        alloc: Global,
        line: &[u8],
        bands: &impl Bands,
    ) -> Result<(Live, Answer), NoMemory>
        ensures answer { IfOk result (λ r. (run_of r.0, said_of r.1) ≡ after_line (run_of self) line.now) }
        ensures keeping { IfOk result (λ r. kept_as r.1.keeping ≡ keeping_of (live_line (words_of line.now))) }
    {
        let number = self.lines.checked_add(1).ok_or(NoMemory)?;
        match live_line(alloc, line)? {
            LiveLine::Step(session, step) => self.step(rt, alloc, session, step, bands),
            LiveLine::Blank => Ok(self.one_more(number, Answer::new(Vec::new(alloc)))),
            LiveLine::Write => {
                let mut answer = Answer::new(Vec::new(alloc));
                answer.is_layout_wanted = true;
                Ok(self.one_more(number, answer))
            }
            LiveLine::Ask(question) => {
                let comment = answer(alloc, &self.view.names, question, self.machine.book())?;
                Ok(self.one_more(number, Answer::new(comment)))
            }
            LiveLine::Unknown => {
                let mut answer = Answer::new(unknown_line(alloc, number)?);
                answer.keeping = Keeping::Unknown(number);
                Ok(self.one_more(number, answer))
            }
        }
    }

    /// Returns whether a step was refused.
    pub fn has_refused(&self) -> bool
        ensures { result ≡ has_refused (run_of self.now) }
    {
        self.replies.iter().any(|reply| is_refusal(reply))
    }

    /// Returns the comments of the order of the steps, as the log tells it, the layout at the end, and how it is shown.
    ///
    /// # Errors
    ///
    /// `NoMemory`, if an allocation fails.
    pub fn end(self, alloc: Global) -> Result<(Vec<u8>, Snapshot, View), NoMemory>
        ensures order { IfOk result (λ r. r.0.items ≡ order_text (order_of self.machine.history.log
            (dealt self.sessions.items self.replies.items (replicate 64 [])))) }
        ensures layout { IfOk result (λ r. r.1 ≡ self.machine.history.layout) }
        ensures view { IfOk result (λ r. r.2 ≡ self.view) }
    {
        let Live {
            machine,
            sessions,
            replies,
            view,
            ..
        } = self;
        let replies = dealt(alloc, MAX_SESSIONS, sessions.as_slice(), replies)?;
        let order = order_of(alloc, machine.book().log(), replies.as_slice())?;
        let layout = machine.book().snapshot().share(alloc)?;
        Ok((comments(alloc, &[], &order)?, layout, view))
    }

    /// Returns the run after a step of a session, and the comment that answers it.
    fn step(
        self,
        rt: &(impl Threads + Sync),
        alloc: Global,
        session: u8,
        step: Step,
        bands: &impl Bands,
    ) -> Result<(Live, Answer), NoMemory>
        ensures answer { IfOk result (λ r. (run_of r.0, said_of r.1) ≡ after_step (run_of self) session step) }
        ensures keeping { IfOk result (λ r. kept_as r.1.keeping ≡ Some (is_lasting step)) }
    {
        let mut run = self;
        let is_flushed = is_lasting(&step);
        let reply = run.machine.step(rt, alloc, session, step, bands);
        if is_memory(&reply) {
            return Err(NoMemory);
        }
        let number = next_of(&run.taken, session)?;
        let comment = reply_line(alloc, session, number, &reply)?;
        let lines = run.lines.checked_add(1).ok_or(NoMemory)?;
        count_step(&mut run.taken, session, number);
        run.sessions.push(session)?;
        run.replies.push(reply)?;
        run.lines = lines;
        let mut answer = Answer::new(comment);
        answer.keeping = Keeping::Line(is_flushed);
        Ok((run, answer))
    }

    /// Returns the run with one line more, which takes no step and is answered so.
    fn one_more(self, lines: u64, answer: Answer) -> (Live, Answer)
        requires { lines ≡ self.lines + 1 }
        ensures run { run_of result.0 ≡ one_more (run_of self) }
        ensures answer { result.1 ≡ answer }
    {
        let mut run = self;
        run.lines = lines;
        (run, answer)
    }
}

/// Returns the number of the session's next step.
fn next_of(taken: &[u64], session: u8) -> Result<u64, NoMemory>
    ensures { IfOk result (λ number. number ≡ slice_index taken.now session + 1) }
{
    match taken.get(usize::from(session)) {
        Some(count) => Ok(count.checked_add(1).ok_or(NoMemory)?),
        None => Ok(1),
    }
}

/// Notes that the session took so many steps.
fn count_step(taken: &mut Vec<u64>, session: u8, number: u64)
    ensures { taken.new.items ≡ slice_set taken.old.items session number }
{
    let place = usize::from(session);
    if place < taken.len() {
        taken[place] = number;
    }
}

/// Returns whether the step with this reply was refused.
pub fn is_refusal(reply: &Reply) -> bool
    ensures { result ≡ is_refusal reply.now }
{
    matches!(reply, Reply::Fault(_))
}

/// Returns whether the step ends with what others see.
fn is_lasting(step: &Step) -> bool
    ensures { result ≡ is_lasting step.now }
{
    match step {
        Step::Commit | Step::Undo(_) | Step::Redo(_) => true,
        Step::Open | Step::Do(_) | Step::Cancel => false,
    }
}
