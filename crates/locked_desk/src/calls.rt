//! The calls of a session: open, commit, undo and redo.
ghost use Rattle.std.specs.Prelude.{◌≡◌, ◌≢◌, ◌<◌, Err, IfErr, IfOk, vec_capacity, vec_len};
ghost use Rattle.desk_rules.specs.Legal.{answer_of, opened_answer, refusal};
ghost use Rattle.desk_rules.specs.Refusals.{open_fault, redo_fault, undo_fault};
ghost use Rattle.desk_rules.specs.Seats.{GainsLogged, calls_behind};
ghost use Rattle.locked_desk.specs.Desks.{
  IsForeignOrFull,
  IsRefusedAs,
  NamesSeat,
  Opens,
  by_book,
  commit_answer,
  commit_by_book,
  commit_fault,
  desk_answer,
};
ghost use Rattle.locked_desk.specs.Desks.{desk_commit_answer, desk_refused};
ghost use Rattle.locked_desk.specs.Ways.{answer_for, call_for, fault_for};

use crate::desk::{Desk, is_same};
use crate::fault::{DeskFault, DeskRefusal};
use crate::guarded::differs;
use crate::seat::Seat;
use crate::way::Way;
use desk_rules::SeatCall;
use lay_point::{NoMemory, Sequence};
use std::alloc::Global;
use std::sync::Wait;
use std::sync::ledger::Ledger;
use txn_commands::{Command, TxnId};
use txn_work::Work;
use undo_book::CommitRefusal;
use undo_rules::{Answer, BookFault, Call, Logged, SessionId};

impl<L: Ledger> Desk<L> {
    /// Opens the session's next work, on the layout as it then is.
    ///
    /// # Errors
    ///
    /// `Differs`, with nothing changed, if the log doesn't have the seat's last call at its place, or not as many calls of
    /// the session, or what is behind the lock isn't the desk's own; `Book` with the book's refusal, which is never `Foreign`;
    /// `Differs` of session 0, the call then being logged, if only the base isn't the desk's own. `NoMemory` can stand in
    /// place of any answer.
    pub fn open<R: Wait>(
        &self,
        rt: &R,
        alloc: Global,
        seat: &mut Seat<L>,
    ) -> Result<Work, DeskFault>
        ensures opens { Opens self.now result seat.old seat.new }
        ensures refused { IfErr result (λ fault. IsRefusedAs self.now seat.old (open_fault seat.old.session) fault) }
        ensures own { result ≢ Err (DeskFault.Book BookFault.Foreign) }
    {
        let Seat {
            session,
            own,
            share,
        } = seat;
        if own.reserve(1).is_err() {
            return Err(DeskFault::Book(BookFault::NoMemory));
        }
        let opened = self
            .entered(rt)
            .open(alloc, &self.origin, *session, own.as_slice(), share);
        let (result, place, base) = match opened {
            Ok(done) => done,
            Err(fault) => return Err(fault),
        };
        let answer = opened_answer(&result);
        keep(own, *session, Call::Open, place, answer);
        match result {
            Ok(work) => {
                if !is_same(&base, &self.origin.base) {
                    return Err(DeskFault::Differs {
                        session: 0,
                        place: 0,
                    });
                }
                Ok(work)
            }
            Err(fault) => Err(DeskFault::Book(fault)),
        }
    }

    /// Commits a work of the seat's session.
    ///
    /// # Errors
    ///
    /// `Differs`, with nothing changed, as in `open`; `Book` with the book's refusal, which is `Foreign`, after `LogFull`,
    /// for a work of another session. The work is handed back, unless it was stale and has ended. `NoMemory` can stand in
    /// place of any answer.
    pub fn commit<R: Wait>(
        &self,
        rt: &R,
        alloc: Global,
        seat: &mut Seat<L>,
        work: Work,
    ) -> Result<TxnId, DeskRefusal>
        ensures gains { GainsLogged self.now (desk_commit_answer result) seat.old (Call.Commit work.id work.commands) seat.new }
        ensures txn { IfOk result (λ txn. txn ≡ work.id) }
        ensures back { IfErr result (λ refusal. refusal ≡ desk_refused refusal.fault work) }
        ensures named { IfErr result (λ refusal. NamesSeat refusal.fault seat.old) }
        ensures foreign { work.id.session ≢ seat.old.session → IsForeignOrFull result }
        ensures refused { IfErr result (λ refusal. IsRefusedAs self.now seat.old (commit_fault seat.old.session work) refusal.fault) }
    {
        let Seat {
            session,
            own,
            share,
        } = seat;
        let mut work = work;
        if own.reserve(1).is_err() || work.prepare(alloc).is_err() {
            return Err(refused(DeskFault::Book(BookFault::NoMemory), work));
        }
        let Ok(commands) = copied(alloc, work.commands()) else {
            return Err(refused(DeskFault::Book(BookFault::NoMemory), work));
        };
        let call = Call::Commit {
            txn: work.id(),
            commands,
        };
        let committed = self
            .entered(rt)
            .commit(alloc, &self.origin, *session, own.as_slice(), share, work);
        // What is left over is dropped here, when the lock has been let go.
        let (result, place, _rest) = match committed {
            Ok(done) => done,
            Err(work) => return Err(refused(differs(*session, own.as_slice()), work)),
        };
        let answer = commit_answer(&result);
        keep(own, *session, call, place, answer);
        commit_by_book(result)
    }

    /// Undoes a committed transaction, of any session.
    ///
    /// # Errors
    ///
    /// `Differs`, with nothing changed, as in `open`; `Book` with the book's refusal, which is never `Foreign`. `NoMemory` can
    /// stand in place of any answer.
    pub fn undo<R: Wait>(
        &self,
        rt: &R,
        alloc: Global,
        seat: &mut Seat<L>,
        txn: TxnId,
    ) -> Result<(), DeskFault>
        ensures gains { GainsLogged self.now (desk_answer Answer.Undone result) seat.old (Call.Undo txn) seat.new }
        ensures named { IfErr result (λ fault. NamesSeat fault seat.old) }
        ensures refused { IfErr result (λ fault. IsRefusedAs self.now seat.old (undo_fault seat.old.session txn) fault) }
        ensures own { result ≢ Err (DeskFault.Book BookFault.Foreign) }
    {
        self.change(rt, alloc, seat, Way::Back, txn)
    }

    /// Redoes an undone transaction, of any session.
    ///
    /// # Errors
    ///
    /// `Differs`, with nothing changed, as in `open`; `Book` with the book's refusal, which is never `Foreign`. `NoMemory` can
    /// stand in place of any answer.
    pub fn redo<R: Wait>(
        &self,
        rt: &R,
        alloc: Global,
        seat: &mut Seat<L>,
        txn: TxnId,
    ) -> Result<(), DeskFault>
        ensures gains { GainsLogged self.now (desk_answer Answer.Redone result) seat.old (Call.Redo txn) seat.new }
        ensures named { IfErr result (λ fault. NamesSeat fault seat.old) }
        ensures refused { IfErr result (λ fault. IsRefusedAs self.now seat.old (redo_fault seat.old.session txn) fault) }
        ensures own { result ≢ Err (DeskFault.Book BookFault.Foreign) }
    {
        self.change(rt, alloc, seat, Way::Forth, txn)
    }

    /// Undoes or redoes a transaction.
    fn change<R: Wait>(
        &self,
        rt: &R,
        alloc: Global,
        seat: &mut Seat<L>,
        way: Way,
        txn: TxnId,
    ) -> Result<(), DeskFault>
        ensures gains { GainsLogged self.now (desk_answer (answer_for way) result) seat.old (call_for way txn) seat.new }
        ensures named { IfErr result (λ fault. NamesSeat fault seat.old) }
        ensures refused { IfErr result (λ fault. IsRefusedAs self.now seat.old (fault_for way seat.old.session txn) fault) }
        ensures own { result ≢ Err (DeskFault.Book BookFault.Foreign) }
    {
        let Seat {
            session,
            own,
            share,
        } = seat;
        if own.reserve(1).is_err() {
            return Err(DeskFault::Book(BookFault::NoMemory));
        }
        let changed = self.entered(rt).change(
            alloc,
            &self.origin,
            *session,
            own.as_slice(),
            share,
            way,
            txn,
        );
        let (result, place) = match changed {
            Ok(done) => done,
            Err(fault) => return Err(fault),
        };
        let answer = logged_answer(way.answer(), &result);
        keep(own, *session, way.call(txn), place, answer);
        by_book(result)
    }
}

/// Adds the call to the session's own, where it is logged.
fn keep(
    own: &mut Vec<SeatCall>,
    session: SessionId,
    call: Call,
    place: usize,
    answer: Option<Answer>,
)
    requires { vec_len own.old < vec_capacity own.old }
    ensures { own.new.items ≡ calls_behind (record { session = session; before = own.old.items; call = call; place = place }) answer }
{
    if let Some(answer) = answer {
        let logged = Logged {
            session: session.number(),
            call,
            answer,
        };
        own.push(SeatCall { place, logged }).unwrap();
    }
}

/// Returns the same commands.
fn copied(alloc: Global, commands: &[Command]) -> Result<Sequence<Command>, NoMemory>
    ensures { IfOk result (λ copy. copy ≡ commands.now) }
{
    let mut copy = Vec::with_capacity(alloc, commands.len())?;
    for command in commands {
        copy.push(command.copy(alloc)?)?;
    }
    Ok(Sequence::from_vec(copy))
}

/// Returns a refused commit with its work, which hasn't come to the book.
fn refused(fault: DeskFault, work: Work) -> DeskRefusal
    ensures { result ≡ record { fault = fault; work = Some work } }
{
    DeskRefusal {
        fault,
        work: Some(work),
    }
}

/// Returns what is logged of an open that is answered so, where it is logged.
fn opened_answer(given: &Result<Work, BookFault>) -> Option<Answer>
    ensures { result ≡ opened_answer given.now }
{
    match given {
        Ok(work) => Some(Answer::Opened(work.id().txn)),
        Err(fault) => logged_refusal(*fault),
    }
}

/// Returns what is logged of a call that is answered so, where it is logged.
fn logged_answer(done: Answer, given: &Result<(), BookFault>) -> Option<Answer>
    ensures { result ≡ answer_of done given.now }
{
    match given {
        Ok(()) => Some(done),
        Err(fault) => logged_refusal(*fault),
    }
}

/// Returns what is logged of a commit that is answered so, where it is logged.
fn commit_answer(given: &Result<TxnId, CommitRefusal>) -> Option<Answer>
    ensures { result ≡ commit_answer given.now }
{
    match given {
        Ok(_) => Some(Answer::Committed),
        Err(refused) => logged_refusal(refused.fault),
    }
}

/// Returns what is logged of a refusal, where it is logged.
fn logged_refusal(fault: BookFault) -> Option<Answer>
    ensures { result ≡ refusal fault }
{
    match fault {
        BookFault::LogFull | BookFault::NoMemory | BookFault::Foreign => None,
        BookFault::NoTxn
        | BookFault::NotLive
        | BookFault::StillLive
        | BookFault::Depends(_)
        | BookFault::Moved(_)
        | BookFault::Stale(_)
        | BookFault::SessionFull => Some(Answer::Refused(fault)),
    }
}

/// Returns the book's answer as the desk's.
fn by_book(answer: Result<(), BookFault>) -> Result<(), DeskFault>
    ensures { result ≡ by_book answer }
{
    match answer {
        Ok(()) => Ok(()),
        Err(fault) => Err(DeskFault::Book(fault)),
    }
}

/// Returns the book's answer to a commit as the desk's.
fn commit_by_book(answer: Result<TxnId, CommitRefusal>) -> Result<TxnId, DeskRefusal>
    ensures { result ≡ commit_by_book answer }
{
    match answer {
        Ok(txn) => Ok(txn),
        Err(refused) => {
            let CommitRefusal { fault, work } = refused;
            Err(DeskRefusal {
                fault: DeskFault::Book(fault),
                work,
            })
        }
    }
}
