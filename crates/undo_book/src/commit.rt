//! Commits.
ghost use Rattle.std.specs.Prelude.{◌≡◌, ◌+◌, IfErr, IfOk, IfSome, IsNone, OnErr, OnOk, Err, None, Some, false, true, drop};
ghost use Rattle.txn_marks.specs.Marks.{AreMarksOf};
ghost use Rattle.txn_commands.specs.Records.{applied};
ghost use Rattle.undo_index.specs.Listed.{AreAdded, IsNew};
ghost use Rattle.undo_rules.specs.Links.{links_to};
ghost use Rattle.undo_rules.specs.Steps.{after_commit, commit_step, is_log_full, is_own, stale_by};
ghost use Rattle.undo_book.specs.Calls.{EndsStale, TakesWork, refused};
ghost use Rattle.undo_book.specs.Places.{IsPutUnder};
ghost use Rattle.undo_book.specs.Replays.{RunsAgain};

use crate::book::{Book, ByName};
use crate::entry::Entry;
use crate::session::end_pending;
use lay_items::Snapshot;
use lay_point::{NoMemory, Sequence};
use std::alloc::Global;
use std::mem::replace;
use txn_commands::{Command, TxnId};
use txn_marks::Marks;
use txn_work::{Spent, Work};
use undo_index::Index;
use undo_rules::{Answer, BookFault, Call, Logged, SessionId};

/// A refused commit.
#[derive(Drop)]
pub struct CommitRefusal {
    /// Why it is refused.
    pub fault: BookFault,
    /// The work, to be used again. A stale one has ended, and isn't handed back.
    pub work: Option<Work>,
}

/// What a commit leaves and keeps, made before it changes anything.
#[derive(Drop)]
struct Prepared {
    /// What is kept of its work.
    marks: Marks,
    /// The layout after it.
    layout: Snapshot,
    /// The transactions that it is linked to.
    seen: Vec<TxnId>,
}

/// What a commit leaves over: what is left of its work, and the layout before it. Dropping it takes time, which a
/// session that shares the book spends when it has let the book go.
#[derive(Drop)]
pub struct Rest {
    work: Option<Spent>,
    layout: Option<Snapshot>,
}

impl Rest {
    /// Returns what is left of this work, and this layout before it.
    fn of(spent: Spent, layout: Snapshot) -> Rest {
        Rest {
            work: Some(spent),
            layout: Some(layout),
        }
    }

    /// Of a commit that is refused nothing is left.
    pub fn none() -> Rest {
        Rest {
            work: None,
            layout: None,
        }
    }
}

/// Returns a refused commit with its work.
fn refused(fault: BookFault, work: Work) -> CommitRefusal
    ensures { result ≡ record { fault = fault; work = Some work } }
{
    CommitRefusal {
        fault,
        work: Some(work),
    }
}

impl Book {
    /// Commits a work: its transaction is live, and the last one.
    ///
    /// # Errors
    ///
    /// Tested in this order:
    ///
    /// - `LogFull`, with the work handed back.
    /// - `Foreign`, with the work handed back, if it isn't the one that its session opened last in this book and that has
    ///   not ended, or if the layout at its open isn't as its snapshot has it on what it touched.
    /// - `Stale` with the first transaction that a call since its open committed, undid or redid and that wrote what the
    ///   work touched. The work has then ended; only this refusal is logged.
    ///
    /// `NoMemory` in place of `Stale` and of success hands the work back, and nothing is changed.
    ///
    /// # Cost
    ///
    /// That of `agrees` on what the work touched; look-ups of the footprint and of the records in the index;
    /// and that of `Version::with`. Where a call since the open undid or redid a transaction, and where the
    /// work is stale, also a look-up by the elements of the footprint in what each transaction wrote that was
    /// changed since. A name is kept of each transaction that the work is linked to.
    pub fn commit(&mut self, alloc: Global, work: Work) -> Result<TxnId, CommitRefusal>
        ensures step { TakesWork self.old work (commit_step self.old work) result self.new }
        ensures full { is_log_full self.old ≡ true → result ≡ Err (refused BookFault.LogFull work) }
        ensures foreign { is_log_full self.old ≡ false → is_own self.old work ≡ false
            → result ≡ Err (refused BookFault.Foreign work) }
        // The commands, run on the layout at the commit, give what they gave in the work.
        ensures ran { OnOk result (RunsAgain work self.old.layout self.new.layout) }
    {
        let (result, _) = self.commit_with_rest(alloc, work);
        result
    }

    /// Commits a work as [`Book::commit`] does, and hands back what is left over.
    ///
    /// # Errors
    ///
    /// Those of [`Book::commit`].
    ///
    /// # Cost
    ///
    /// That of [`Book::commit`], but for dropping the rest.
    pub fn commit_with_rest(
        &mut self,
        alloc: Global,
        work: Work,
    ) -> (Result<TxnId, CommitRefusal>, Rest)
        ensures step { TakesWork self.old work (commit_step self.old work) result.0 self.new }
        ensures full { is_log_full self.old ≡ true → result.0 ≡ Err (refused BookFault.LogFull work) }
        ensures foreign { is_log_full self.old ≡ false → is_own self.old work ≡ false
            → result.0 ≡ Err (refused BookFault.Foreign work) }
        ensures ran { OnOk result.0 (RunsAgain work self.old.layout self.new.layout) }
    {
        if self.is_full() {
            return (Err(refused(BookFault::LogFull, work)), Rest::none());
        }
        let Some(session) = self.own_session(&work) else {
            return (Err(refused(BookFault::Foreign, work)), Rest::none());
        };
        match self.changed_under(&work) {
            Some(other) => (self.end_stale(session, work, other), Rest::none()),
            None => match self.append(alloc, session, work) {
                Ok((txn, rest)) => (Ok(txn), rest),
                Err(refusal) => (Err(refusal), Rest::none()),
            },
        }
    }

    /// Returns the session of the work, if the work is the one that it opened last and that has not ended, and the
    /// layout at its open is as its snapshot has it on what it touched.
    fn own_session(&self, work: &Work) -> Option<SessionId>
        ensures own { IfSome result (λ session. (session ≡ work.now.id.session) × (is_own self.now work.now ≡ true)) }
        ensures other { IsNone result → is_own self.now work.now ≡ false }
    {
        let id = work.id();
        let session = SessionId::new(id.session)?;
        let state = &self.sessions[session.index()];
        if state.opens() == id.txn && state.awaits(work) {
            Some(session)
        } else {
            None
        }
    }

    /// Returns the first transaction that a call since the work's open changed and that wrote what the work
    /// touched.
    fn changed_under(&self, work: &Work) -> Option<TxnId>
        requires { is_own self.now work.now ≡ true }
        ensures { result ≡ stale_by self.now.entries work.now.footprint
            (drop (work.now.opened + 1) self.now.log) }
    {
        let since = work.opened() as usize + 1;
        self.stale_by(work.footprint(), since)
    }

    /// Ends the transaction of the session's own work, of which another wrote what it touched. The work
    /// is handed back where it is out of memory.
    fn end_stale(
        &mut self,
        session: SessionId,
        work: Work,
        other: TxnId,
    ) -> Result<TxnId, CommitRefusal>
        requires session { session ≡ work.id.session }
        requires own { is_own self.old work ≡ true }
        ensures { EndsStale self.old work other result self.new }
    {
        if self.log.reserve(1).is_err() || self.changes.reserve_call().is_err() {
            return Err(refused(BookFault::NoMemory, work));
        }
        let txn = work.id();
        let fault = BookFault::Stale(other);
        let (commands, _) = work.into_commands();
        let logged = Logged {
            session: txn.session,
            call: Call::Commit { txn, commands },
            answer: Answer::Refused(fault),
        };
        self.log.push(logged).unwrap();
        self.changes.add_unchanged();
        end_pending(&mut self.sessions, session);
        Err(CommitRefusal { fault, work: None })
    }

    /// Appends the transaction of the session's own work that isn't stale. The work is handed back where it
    /// is out of memory.
    fn append(
        &mut self,
        alloc: Global,
        session: SessionId,
        work: Work,
    ) -> Result<(TxnId, Rest), CommitRefusal>
        requires session { session ≡ work.id.session }
        requires log { is_log_full self.old ≡ false }
        requires own { is_own self.old work ≡ true }
        requires fresh { stale_by self.old.entries work.footprint (drop (work.opened + 1) self.old.log) ≡ None }
        ensures txn { IfOk result (λ r. r.0 ≡ work.id) }
        ensures ok { OnOk result (self.new ≡ after_commit self.old work) }
        ensures ran { OnOk result (RunsAgain work self.old.layout self.new.layout) }
        ensures back { IfErr result (λ refusal. refusal ≡ refused BookFault.NoMemory work) }
        ensures err { OnErr result (self.new ≡ self.old) }
    {
        let txn = work.id();
        // for the proof: its snapshot is sound, and it is a transaction
        work.known();
        let mut work = work;
        let Ok(prepared) = self.prepare(alloc, &mut work) else {
            return Err(refused(BookFault::NoMemory, work));
        };
        let Prepared {
            marks,
            layout,
            seen,
        } = prepared;
        let index = self.entries.len();
        if self.entries.reserve(1).is_err()
            || self.log.reserve(1).is_err()
            || self.changes.reserve_commit().is_err()
            || list_at(&mut self.index, &mut self.places, txn, index, &marks).is_err()
        {
            return Err(refused(BookFault::NoMemory, work));
        }
        let place = self.log.len() as u32;
        let (commands, spent) = work.into_commands();
        let entry = Entry::new(txn, place, marks.wrote, marks.touched, seen);
        self.entries.push(entry).unwrap();
        self.log.push(committed(txn, commands)).unwrap();
        self.changes.add_commit(place);
        end_pending(&mut self.sessions, session);
        let before = replace(&mut self.layout, layout);
        Ok((txn, Rest::of(spent, before)))
    }

    /// Makes what a commit of the work leaves and keeps, and changes nothing yet.
    fn prepare(&self, alloc: Global, work: &mut Work) -> Result<Prepared, NoMemory>
        requires own { is_own self.now work.old ≡ true }
        requires fresh { stale_by self.now.entries work.old.footprint
            (drop (work.old.opened + 1) self.now.log) ≡ None }
        ensures same { work.new ≡ work.old }
        ensures marks { IfOk result (λ made. AreMarksOf work.old.writes work.old.footprint made.marks) }
        ensures layout { IfOk result (λ made. made.layout ≡ applied self.now.layout work.old.writes) }
        ensures seen { IfOk result (λ made. made.seen.items ≡ links_to self.now.entries work.old.footprint) }
    {
        // for the proof: its snapshot is sound, and it is a transaction
        work.known();
        let marks = work.take_marks(alloc)?;
        let layout = marks.wrote.applied(alloc, &self.layout)?;
        let seen = self.links_to(alloc, &marks.touched)?;
        Ok(Prepared {
            marks,
            layout,
            seen,
        })
    }
}

/// Returns the logged call that committed the transaction of these commands.
fn committed(txn: TxnId, commands: Sequence<Command>) -> Logged
    ensures { result ≡ record {
      session = txn.session;
      call = Call.Commit txn commands;
      answer = Answer.Committed;
    } }
{
    Logged {
        session: txn.session,
        call: Call::Commit { txn, commands },
        answer: Answer::Committed,
    }
}

/// Lists a transaction at its place, under its name and under the elements that it wrote and touched and didn't make.
/// Out of memory all stays as it was where its place is a new one.
fn list_at(
    index: &mut Index,
    places: &mut ByName,
    txn: TxnId,
    place: usize,
    marks: &Marks,
) -> Result<(), NoMemory>
    ensures writers { OnOk result (AreAdded index.old.writers txn marks.now.met place index.new.writers) }
    ensures readers { OnOk result (AreAdded index.old.readers txn marks.now.touched place index.new.readers) }
    ensures places { OnOk result (IsPutUnder txn place places.old.entries places.new.entries) }
    ensures same_writers { OnErr result (IsNew index.old.writers place
        → index.new.writers ≡ index.old.writers) }
    ensures same_readers { OnErr result (IsNew index.old.readers place
        → index.new.readers ≡ index.old.readers) }
    ensures same_places { OnErr result (places.new.entries ≡ places.old.entries) }
{
    index.enter(txn, &marks.met, &marks.touched, place)?;
    if places.insert(txn, place).is_err() {
        index.leave(txn, &marks.met, &marks.touched, place);
        return Err(NoMemory {});
    }
    Ok(())
}
