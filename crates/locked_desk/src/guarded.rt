//! What is behind the lock: the book, how many calls each session has, and the ledger of all calls.
ghost use Rattle.std.specs.Prelude.{◌≡◌, ◌+◌, ◌-◌, ◌^◌, ◌<◌, ◌≤◌, false, true, replicate, slice_index, vec_len};
ghost use Rattle.undo_rules.specs.Steps.{fresh, is_log_full};
ghost use Rattle.desk_rules.specs.Guards.{Fits, has_last, ones, with_one_counted};
ghost use Rattle.desk_rules.specs.Seats.{last_of, place_or_zero};
ghost use Rattle.locked_desk.specs.Desks.{differs_refusal};

use crate::desk::is_same;
use crate::fault::DeskFault;
use crate::origin::Origin;
use desk_rules::{SeatCall, is_last_in};
use std::marker::Model;
use std::sync::ledger;
use std::sync::ledger::{Ledger, Share};
use undo_book::Book;
use undo_rules::{BookFault, SessionCount, SessionId};

/// A book with the numbers of calls of the sessions in its log.
#[derive(Drop)]
pub struct Guarded<L: Ledger> {
    /// How many sessions have seats.
    pub sessions: SessionCount,
    /// The history.
    pub book: Book,
    /// How many calls the book logs at most.
    pub limit: u32,
    /// How many calls of each session are logged.
    pub counts: Vec<usize>,
    /// The ledger of all calls.
    pub calls: ledger::Book<L>,
}

impl<L: Ledger> Model for Guarded<L> {
    ghost use Rattle.std.specs.Prelude.{◌≡◌};
    ghost use Rattle.desk_rules.specs.Guards.{Guard, IsGuard};
    ghost use Rattle.locked_desk.specs.Stored.{coded_guard};

    ghost Value = { Guard };

    ghost coded = { coded_guard };

    ghost view = { λ g. record { sessions = g.sessions; book = g.book; counts = g.counts.items; total = g.calls.total } };

    ghost invariant = { λ g. IsGuard (record { sessions = g.sessions; book = g.book; counts = g.counts.items; total = g.calls.total })
        × (g.limit ≡ g.book.limit) };
}

impl<L: Ledger> Guarded<L> {
    /// Returns whether the log has the session's last call at its place, and as many calls of the session.
    pub(crate) fn has_last(&self, session: SessionId, own: &[SeatCall]) -> bool
        ensures { result ≡ has_last self.now session own.now }
    {
        if !self.sessions.has(session) {
            return false;
        }
        self.counts[session.index()] == own.len() && is_last_in(self.book.log(), own)
    }

    /// Returns whether this has as many sessions as a desk of this origin, and logs as many calls.
    pub(crate) fn fits(&self, origin: &Origin) -> bool
        ensures { result ≡ true → Fits origin.now self.now }
    {
        self.sessions == origin.sessions && self.limit == origin.limit
    }

    /// Returns whether the book has this base, where its log is full.
    fn is_own_if_full(&self, origin: &Origin) -> bool
        ensures { result ≡ true → is_log_full self.now.book ≡ true → self.now.book.base ≡ origin.now.base }
    {
        if self.book.log().len() < self.limit as usize {
            return true;
        }
        is_same(self.book.base(), &origin.base)
    }

    /// Returns whether this is of a desk of this origin, and the log has the session's calls so far. The base is
    /// compared only where the log is full.
    pub(crate) fn is_ready(&self, origin: &Origin, session: SessionId, own: &[SeatCall]) -> bool
        ensures last { result ≡ true → has_last self.now session own.now ≡ true }
        ensures fits { result ≡ true → Fits origin.now self.now }
        ensures full { result ≡ true → is_log_full self.now.book ≡ true → self.now.book.base ≡ origin.now.base }
    {
        self.has_last(session, own) && self.fits(origin) && self.is_own_if_full(origin)
    }

    /// Returns whether a refusal may be told: as foreign only by a book of this base.
    pub(crate) fn may_tell(&self, origin: &Origin, fault: BookFault) -> bool
        ensures own { result ≡ true → fault ≡ BookFault.Foreign → self.now.book.base ≡ origin.now.base }
        ensures foreign { result ≡ false → fault ≡ BookFault.Foreign }
    {
        match fault {
            BookFault::Foreign => is_same(self.book.base(), &origin.base),
            BookFault::LogFull
            | BookFault::NoMemory
            | BookFault::NoTxn
            | BookFault::NotLive
            | BookFault::StillLive
            | BookFault::Depends(_)
            | BookFault::Moved(_)
            | BookFault::Stale(_)
            | BookFault::SessionFull => true,
        }
    }
}

/// Returns the place of the last of these calls, or 0.
pub(crate) fn last_place(own: &[SeatCall]) -> usize
    ensures { result ≡ place_or_zero (last_of own.now) }
{
    match own.last() {
        Some(kept) => kept.place,
        None => 0,
    }
}

/// Returns the refusal that names the session and its last place.
pub(crate) fn differs(session: SessionId, own: &[SeatCall]) -> DeskFault
    ensures { result ≡ differs_refusal session own.now }
{
    let session = session.number();
    let place = last_place(own);
    DeskFault::Differs { session, place }
}

/// Counts one more call of the session, where there is one.
pub(crate) fn count_call<L: Ledger>(
    counts: &mut Vec<usize>,
    calls: &mut ledger::Book<L>,
    share: &mut Share<L>,
    session: SessionId,
    more: bool,
)
    requires high { session ≤ vec_len counts.old }
    requires room { slice_index counts.old.items (session - 1) < 2 ^ 63 }
    requires part { share.old.parts ≡ 1 }
    ensures counts { counts.new.items ≡ with_one_counted more counts.old.items (session - 1) }
    ensures total { calls.new.total ≡ calls.old.total + ones more }
    ensures amount { share.new.amount ≡ share.old.amount + ones more }
    ensures parts { share.new.parts ≡ 1 }
{
    if more {
        counts[session.index()] += 1;
        calls.add(share, 1);
    }
}

/// Returns what is behind the lock of a new desk.
pub(crate) fn fresh_guard<L: Ledger>(
    sessions: SessionCount,
    book: Book,
    limit: u32,
    counts: Vec<usize>,
    calls: ledger::Book<L>,
) -> Guarded<L>
    requires book { book ≡ fresh book.base limit }
    requires counts { counts.items ≡ replicate sessions 0 }
    requires calls { calls.total ≡ 0 }
{
    Guarded {
        sessions,
        book,
        limit,
        counts,
        calls,
    }
}
