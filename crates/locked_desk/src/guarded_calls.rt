//! Calls of a session on what is behind the lock: opens, changes and commits.
ghost use Rattle.std.specs.Prelude.{◌≡◌, ◌≢◌, ◌⊎◌, ◌+◌, [], Err, IfErr, IfOk, IfSome, None, false, true, Some};
ghost use Rattle.lay_point.specs.Memory.{IsAnswer};
ghost use Rattle.undo_rules.specs.Steps.{commit_step};
ghost use Rattle.undo_book.specs.Calls.{refused, with_refused_work};
ghost use Rattle.desk_rules.specs.Guards.{Fits, has_last};
ghost use Rattle.desk_rules.specs.Legal.{answer_of, on_base, opened_answer};
ghost use Rattle.desk_rules.specs.Refusals.{IsRefused, open_fault};
ghost use Rattle.desk_rules.specs.Seats.{EndsWith, calls_added};
ghost use Rattle.locked_desk.specs.Desks.{IsLooked, commit_answer, commit_fault, differs_refusal, full_or_foreign, other_fault};
ghost use Rattle.locked_desk.specs.Ways.{answer_for, call_for, fault_for};

use crate::desk::is_same;
use crate::fault::DeskFault;
use crate::guarded::{Guarded, count_call, differs};
use crate::origin::Origin;
use crate::way::Way;
use desk_rules::SeatCall;
use lay_items::Snapshot;
use std::alloc::Global;
use std::sync::ledger::{Ledger, Share};
use txn_commands::TxnId;
use txn_work::Work;
use undo_book::{CommitRefusal, Rest};
use undo_rules::{BookFault, Call, SessionId};

impl<L: Ledger> Guarded<L> {
    /// Opens the session's next work, where the log has the session's calls so far. Returns with it the
    /// place of the call and the book's base.
    pub fn open(
        &mut self,
        alloc: Global,
        origin: &Origin,
        session: SessionId,
        own: &[SeatCall],
        share: &mut Share<L>,
    ) -> Result<(Result<Work, BookFault>, usize, Snapshot), DeskFault>
        requires { share.old.parts ≡ 1 }
        ensures made { IfOk result (λ r. IfSome (opened_answer r.0) (EndsWith (on_base self.new.book.base origin.now) self.new.book
            (record { session = session; before = own.now; call = Call.Open; place = r.1 }))) }
        ensures work { IfOk result (λ r. IfOk r.0 (λ w. (w.id.session ≡ session) × (w.opened ≡ r.1)
            × (w.snapshot ≡ self.new.book.layout) × (w.commands ≡ []))) }
        ensures base { IfOk result (λ r. r.2 ≡ self.new.book.base) }
        ensures told { IfOk result (λ r. IfErr r.0 (λ fault. IsRefused origin.now (record { session = session; own = own.now })
            (open_fault session) fault)) }
        ensures amount { IfOk result (λ r. share.new.amount ≡ share.old.amount + calls_added (opened_answer r.0)) }
        ensures refused { IfErr result (λ fault. IsLooked fault session own.now × (share.new.amount ≡ share.old.amount)) }
        ensures parts { share.new.parts ≡ 1 }
    {
        if !self.is_ready(origin, session, own) {
            return Err(differs(session, own));
        }
        let Guarded {
            sessions: _,
            book,
            limit: _,
            counts,
            calls,
        } = self;
        let base = book.base().share(alloc)?;
        // for the proof: the layout is sound
        book.snapshot().version();
        let place = book.log().len();
        let result = book.open(alloc, session.number());
        let more = place < book.log().len();
        count_call(counts, calls, share, session, more);
        Ok((result, place, base))
    }

    /// Undoes or redoes a transaction, where the log has the session's calls so far. Returns with the answer
    /// the place of the call.
    pub fn change(
        &mut self,
        alloc: Global,
        origin: &Origin,
        session: SessionId,
        own: &[SeatCall],
        share: &mut Share<L>,
        way: Way,
        txn: TxnId,
    ) -> Result<(Result<(), BookFault>, usize), DeskFault>
        requires { share.old.parts ≡ 1 }
        ensures made { IfOk result (λ r. IfSome (answer_of (answer_for way) r.0) (EndsWith (on_base self.new.book.base origin.now)
            self.new.book (record { session = session; before = own.now; call = call_for way txn; place = r.1 }))) }
        ensures told { IfOk result (λ r. IfErr r.0 (λ fault. IsRefused origin.now (record { session = session; own = own.now })
            (fault_for way session txn) fault)) }
        ensures amount { IfOk result (λ r. share.new.amount ≡ share.old.amount + calls_added (answer_of (answer_for way) r.0)) }
        ensures refused { IfErr result (λ fault. (fault ≡ differs_refusal session own.now) × (share.new.amount ≡ share.old.amount)) }
        ensures parts { share.new.parts ≡ 1 }
    {
        if !self.is_ready(origin, session, own) {
            return Err(differs(session, own));
        }
        let Guarded {
            sessions: _,
            book,
            limit: _,
            counts,
            calls,
        } = self;
        // for the proof: the layout is sound
        book.snapshot().version();
        let place = book.log().len();
        let result = way.take(book, alloc, session, txn);
        let more = place < book.log().len();
        count_call(counts, calls, share, session, more);
        Ok((result, place))
    }

    /// Commits a work, where the log has the session's calls so far; else hands it back. A work of another
    /// session doesn't come to the book. What a commit leaves over is handed back, to be dropped without the lock.
    pub fn commit(
        &mut self,
        alloc: Global,
        origin: &Origin,
        session: SessionId,
        own: &[SeatCall],
        share: &mut Share<L>,
        work: Work,
    ) -> Result<(Result<TxnId, CommitRefusal>, usize, Rest), Work>
        requires { share.old.parts ≡ 1 }
        ensures made { IfOk result (λ r. IfSome (commit_answer r.0) (EndsWith (on_base self.new.book.base origin.now) self.new.book
            (record { session = session; before = own.now; call = Call.Commit work.id work.commands; place = r.1 }))) }
        ensures txn { IfOk result (λ r. IfOk r.0 (λ txn. txn ≡ work.id)) }
        ensures back { IfOk result (λ r. IfErr r.0 (λ refusal. refusal ≡ refused refusal.fault work)) }
        ensures foreign { IfOk result (λ r. work.id.session ≢ session → r.0 ≡ Err (refused (other_fault self.old.book) work)) }
        ensures told { IfOk result (λ r. IfErr r.0 (λ refusal. IsRefused origin.now (record { session = session; own = own.now })
            (commit_fault session work) refusal.fault)) }
        ensures amount { IfOk result (λ r. share.new.amount ≡ share.old.amount + calls_added (commit_answer r.0)) }
        ensures none { IfErr result (λ back. (back ≡ work) × (share.new.amount ≡ share.old.amount)) }
        ensures parts { share.new.parts ≡ 1 }
    {
        if !self.is_ready(origin, session, own) {
            return Err(work);
        }
        if work.id().session != session.number() {
            if !is_same(self.book.base(), &origin.base) {
                return Err(work);
            }
            let place = self.book.log().len();
            let full = place >= self.limit as usize;
            return Ok((Err(refused_work(full, work)), place, Rest::none()));
        }
        let (result, place, rest) = self.commit_own(alloc, origin, session, own, share, work);
        match result {
            Ok(txn) => Ok((Ok(txn), place, rest)),
            Err(refusal) => {
                let may_tell = self.may_tell(origin, refusal.fault);
                match told(refusal, may_tell) {
                    Ok(refusal) => Ok((Err(refusal), place, rest)),
                    Err(work) => Err(work),
                }
            }
        }
    }

    /// Commits a work of the session, of which the log has the calls so far.
    fn commit_own(
        &mut self,
        alloc: Global,
        origin: &Origin,
        session: SessionId,
        own: &[SeatCall],
        share: &mut Share<L>,
        work: Work,
    ) -> (Result<TxnId, CommitRefusal>, usize, Rest)
        requires look { has_last self.old session own.now ≡ true }
        requires fits { Fits origin.now self.old }
        requires session { work.id.session ≡ session }
        requires part { share.old.parts ≡ 1 }
        ensures made { IfSome (commit_answer result.0) (EndsWith (on_base self.new.book.base origin.now) self.new.book
            (record { session = session; before = own.now; call = Call.Commit work.id work.commands; place = result.1 })) }
        ensures step { IsAnswer (refused BookFault.NoMemory work) result.0
            (with_refused_work (commit_step self.old.book work).0 work) }
        ensures base { self.new.book.base ≡ self.old.book.base }
        ensures txn { IfOk result.0 (λ txn. txn ≡ work.id) }
        ensures back { IfErr result.0 (λ refusal. refusal ≡ refused refusal.fault work) }
        ensures amount { share.new.amount ≡ share.old.amount + calls_added (commit_answer result.0) }
        ensures parts { share.new.parts ≡ 1 }
    {
        // for the proof: how many calls there are, and how many there may be
        let _calls = own.len();
        let _limit = origin.limit;
        let Guarded {
            sessions: _,
            book,
            limit: _,
            counts,
            calls,
        } = self;
        // for the proof: the layout and the work's snapshot are sound, and the work is a transaction
        book.snapshot().version();
        work.snapshot().version();
        work.id();
        let place = book.log().len();
        let (result, rest) = book.commit_with_rest(alloc, work);
        let more = place < book.log().len();
        count_call(counts, calls, share, session, more);
        (result, place, rest)
    }
}

/// Returns the refusal, or its work in place of one that may not be told.
fn told(refusal: CommitRefusal, may_tell: bool) -> Result<CommitRefusal, Work>
    ensures same { IfOk result (λ told. (told ≡ refusal) × ((may_tell ≡ true) ⊎ (refusal.work ≡ None))) }
    ensures back { IfErr result (λ work. (refusal.work ≡ Some work) × (may_tell ≡ false)) }
{
    let CommitRefusal { fault, work } = refusal;
    if may_tell {
        return Ok(CommitRefusal { fault, work });
    }
    match work {
        Some(work) => Err(work),
        None => Ok(CommitRefusal { fault, work: None }),
    }
}

/// Returns a refusal of a work of another session.
fn refused_work(full: bool, work: Work) -> CommitRefusal
    ensures { result ≡ refused (full_or_foreign full) work }
{
    let fault = if full {
        BookFault::LogFull
    } else {
        BookFault::Foreign
    };
    CommitRefusal {
        fault,
        work: Some(work),
    }
}
