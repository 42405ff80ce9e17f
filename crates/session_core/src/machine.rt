//! The machine: a book, and the transaction that each session has open.
ghost use Rattle.std.specs.Prelude.{◌≡◌, ◌≤◌, false, true, IfOk, IfSome, IsNone, Ok, None, Some, replicate};
ghost use Rattle.std.specs.List.{All};
ghost use Rattle.lay_point.specs.Memory.{IsAnswer};
ghost use Rattle.txn_commands.specs.declared.command.TxnId.{TxnId as TxnName};
ghost use Rattle.undo_rules.specs.Steps.{with_mark};
ghost use Rattle.undo_book.specs.Replays.{CanBeRedone, replay};
ghost use Rattle.session_core.specs.Commits.{reply_of, work_of};
ghost use Rattle.session_core.specs.Machine.{IsNotForeign, Ran, TakesStep, is_session, start};

use band_workers::Bands;
use lay_items::Snapshot;
use lay_point::{NoMemory, ShrinkingIntoIter};
use session_steps::{Reply, Step, StepFault};
use std::alloc::Global;
use std::marker::Model;
use std::thread::Threads;
use txn_commands::{Command, TxnId};
use txn_work::Work;
use undo_book::{Book, CommitRefusal, MAX_CALLS};
use undo_rules::{SessionCount, SessionId};

/// Sessions on one book, each with at most one transaction open.
#[derive(Drop)]
pub struct Machine {
    book: Book,
    works: Vec<Option<Work>>,
}

impl Model for Machine {
    ghost use Rattle.session_core.specs.Machine.{State, coded_state};

    ghost Value = { State };

    ghost coded = { coded_state };

    ghost use Rattle.session_core.specs.Machines.{IsMachine, machine_state};

    ghost view = { machine_state };

    ghost invariant = { IsMachine };
}

impl Machine {
    /// Returns a machine on this layout with this many sessions, none of which has a transaction open.
    ///
    /// # Errors
    ///
    /// `NoMemory`, if an allocation fails.
    pub fn new(alloc: Global, base: Snapshot, sessions: u8) -> Result<Machine, NoMemory>
        requires low { 1 ≤ sessions }
        requires high { sessions ≤ 64 }
        ensures { IsAnswer (record {}) result (Ok (start base sessions MAX_CALLS)) }
    {
        Machine::with_log(alloc, base, sessions, MAX_CALLS)
    }

    /// Returns such a machine whose book logs as many calls as `limit` at most.
    ///
    /// # Errors
    ///
    /// `NoMemory`, if an allocation fails.
    pub fn with_log(
        alloc: Global,
        base: Snapshot,
        sessions: u8,
        limit: u32,
    ) -> Result<Machine, NoMemory>
        requires low { 1 ≤ sessions }
        requires high { sessions ≤ 64 }
        requires some { 1 ≤ limit }
        requires most { limit ≤ MAX_CALLS }
        ensures { IsAnswer (record {}) result (Ok (start base sessions limit)) }
    {
        Ok(Machine {
            book: Book::with_log(alloc, base, limit)?,
            works: no_works(alloc, SessionCount::new(sessions).unwrap())?,
        })
    }

    /// The book on which the sessions work.
    pub fn book(&self) -> &Book
        ensures { result.now ≡ self.now.history }
    {
        &self.book
    }

    /// Ends the sessions. Returns their book; what is open is given up.
    pub fn into_book(self) -> Book
        ensures { result ≡ self.history }
    {
        let Machine { book, .. } = self;
        book
    }

    /// Takes a step of a session. `NoSession` comes first, then `AlreadyOpen` and `NotOpen`; these are
    /// not logged. A refused commit leaves the transaction open, unless it is stale and has ended. Where an answer
    /// out of memory comes in place of another, nothing changes; it never comes in place of these three, of `LogFull`
    /// or of a cancel's answer. `bands` finds the edges of Booleans.
    ///
    /// # Cost
    ///
    /// That of the command, or of the call of the book.
    pub fn step(
        &mut self,
        rt: &(impl Threads + Sync),
        alloc: Global,
        session: u8,
        step: Step,
        bands: &impl Bands,
    ) -> Reply
        ensures step { TakesStep self.old session step result self.new }
        // A session's open transaction is always the one that the book keeps for it.
        ensures own { IsNotForeign result }
        // An accepted undo gives the layout of the same history without the transaction.
        ensures without { (txn : TxnName) → step ≡ Step.Undo txn → result ≡ Reply.Undone
            → replay (with_mark self.old.history false txn) ≡ Some self.new.history.layout }
        // Then nothing is against a redo, and it leads to the former layout.
        ensures again { (txn : TxnName) → step ≡ Step.Undo txn → result ≡ Reply.Undone
            → CanBeRedone self.new.history session txn self.old.history.layout }
    {
        let Some(session) = self.session(session) else {
            return Reply::Fault(StepFault::NoSession);
        };
        match step {
            Step::Open => self.open(alloc, session),
            Step::Do(command) => self.run_command(rt, alloc, session, command, bands),
            Step::Commit => self.commit(alloc, session),
            Step::Cancel => self.cancel(session),
            Step::Undo(txn) => self.undo(alloc, session, txn),
            Step::Redo(txn) => self.redo(alloc, session, txn),
        }
    }

    /// Returns the session of the number, if there is such a one.
    fn session(&self, number: u8) -> Option<SessionId>
        ensures some { IfSome result (λ session. (session ≡ number) × (is_session self.now session ≡ true)) }
        ensures none { IsNone result → is_session self.now number ≡ false }
    {
        let count = self.works.len();
        let session = SessionId::new(number)?;
        if session.index() < count {
            Some(session)
        } else {
            None
        }
    }

    /// Opens a transaction of the session.
    fn open(&mut self, alloc: Global, session: SessionId) -> Reply
        requires { is_session self.old session ≡ true }
        ensures step { TakesStep self.old session Step.Open result self.new }
        ensures own { IsNotForeign result }
    {
        let place = session.index();
        if self.works[place].is_some() {
            return Reply::Fault(StepFault::AlreadyOpen);
        }
        match self.book.open(alloc, session.number()) {
            Ok(work) => {
                let number = work.id().txn;
                self.works[place] = Some(work);
                Reply::Opened(number)
            }
            Err(fault) => Reply::Fault(StepFault::Book(fault)),
        }
    }

    /// Runs a command in the session's transaction.
    fn run_command(
        &mut self,
        rt: &(impl Threads + Sync),
        alloc: Global,
        session: SessionId,
        command: Command,
        bands: &impl Bands,
    ) -> Reply
        requires { is_session self.old session ≡ true }
        ensures step { TakesStep self.old session (Step.Do command) result self.new }
        ensures own { IsNotForeign result }
    {
        let place = session.index();
        let Some(mut work) = self.works[place].take() else {
            return Reply::Fault(StepFault::NotOpen);
        };
        let answer = work.run(rt, alloc, command, bands);
        self.works[place] = Some(work);
        match answer {
            Ok(done) => Reply::Done(done),
            Err(fault) => Reply::Fault(StepFault::Command(fault)),
        }
    }

    /// Commits the session's transaction.
    fn commit(&mut self, alloc: Global, session: SessionId) -> Reply
        requires { is_session self.old session ≡ true }
        ensures step { TakesStep self.old session Step.Commit result self.new }
        ensures own { IsNotForeign result }
    {
        let place = session.index();
        let Some(work) = self.works[place].take() else {
            return Reply::Fault(StepFault::NotOpen);
        };
        let (reply, left) = outcome(self.book.commit(alloc, work));
        self.works[place] = left;
        reply
    }

    /// Gives the session's transaction up.
    fn cancel(&mut self, session: SessionId) -> Reply
        requires { is_session self.old session ≡ true }
        ensures step { TakesStep self.old session Step.Cancel result self.new }
        ensures own { IsNotForeign result }
    {
        let place = session.index();
        if self.works[place].is_none() {
            return Reply::Fault(StepFault::NotOpen);
        }
        self.works[place] = None;
        Reply::Cancelled
    }

    /// Undoes a transaction.
    fn undo(&mut self, alloc: Global, session: SessionId, txn: TxnId) -> Reply
        requires { is_session self.old session ≡ true }
        ensures step { TakesStep self.old session (Step.Undo txn) result self.new }
        ensures own { IsNotForeign result }
        ensures without { result ≡ Reply.Undone
            → replay (with_mark self.old.history false txn) ≡ Some self.new.history.layout }
        ensures again { result ≡ Reply.Undone → CanBeRedone self.new.history session txn self.old.history.layout }
    {
        match self.book.undo(alloc, session.number(), txn) {
            Ok(()) => Reply::Undone,
            Err(fault) => Reply::Fault(StepFault::Book(fault)),
        }
    }

    /// Redoes a transaction.
    fn redo(&mut self, alloc: Global, session: SessionId, txn: TxnId) -> Reply
        requires { is_session self.old session ≡ true }
        ensures step { TakesStep self.old session (Step.Redo txn) result self.new }
        ensures own { IsNotForeign result }
    {
        match self.book.redo(alloc, session.number(), txn) {
            Ok(()) => Reply::Redone,
            Err(fault) => Reply::Fault(StepFault::Book(fault)),
        }
    }

    /// The machine after these steps, each with the number of its session, and its answers to them. `bands`
    /// finds the edges of Booleans. What the steps took is given back on the way.
    ///
    /// # Errors
    ///
    /// `NoMemory`, if an allocation fails.
    ///
    /// # Cost
    ///
    /// That of its steps.
    pub fn run(
        rt: &(impl Threads + Sync),
        alloc: Global,
        base: Snapshot,
        sessions: u8,
        steps: Vec<(u8, Step)>,
        bands: &impl Bands,
    ) -> Result<(Machine, Vec<Reply>), NoMemory>
        requires low { 1 ≤ sessions }
        requires high { sessions ≤ 64 }
        ensures steps { IfOk result (λ r. Ran (start base sessions MAX_CALLS) steps.items r.1.items r.0) }
        ensures own { IfOk result (λ r. All IsNotForeign r.1.items) }
        ensures replay { IfOk result (λ r. replay r.0.history ≡ Some r.0.history.layout) }
    {
        let mut machine = Machine::new(alloc, base, sessions)?;
        let mut replies = Vec::with_capacity(alloc, steps.len())?;
        for (session, step) in ShrinkingIntoIter::of(steps) {
            let reply = machine.step(rt, alloc, session, step, bands);
            replies.push(reply)?;
        }
        // What the book says of its layout is said of the machine.
        machine.book().snapshot();
        Ok((machine, replies))
    }
}

/// Returns the reply to a commit, and what the session then has open.
fn outcome(answer: Result<TxnId, CommitRefusal>) -> (Reply, Option<Work>)
    ensures reply { result.0 ≡ reply_of answer }
    ensures work { result.1 ≡ work_of answer }
{
    match answer {
        Ok(txn) => (Reply::Committed(txn), None),
        Err(refusal) => (Reply::Fault(StepFault::Book(refusal.fault)), refusal.work),
    }
}

/// No open transactions, one for each session.
fn no_works(alloc: Global, sessions: SessionCount) -> Result<Vec<Option<Work>>, NoMemory>
    ensures { IfOk result (λ works. works.items ≡ replicate sessions None) }
{
    let mut works = Vec::with_capacity(alloc, usize::from(sessions.number()))?;
    for _ in 0..sessions.number() {
        works.push(None)?;
    }
    Ok(works)
}
