//! Desks.
ghost use Rattle.std.specs.Prelude.{◌≡◌, ◌≢◌, ◌≤◌, IfOk, false, true, replicate};
ghost use Rattle.undo_rules.specs.Steps.{fresh};
ghost use Rattle.undo_book.specs.declared.book.TheConstants.{MAX_CALLS};
ghost use Rattle.desk_rules.specs.Close.{empty_seats};

use crate::guarded::{Guarded, fresh_guard};
use crate::origin::Origin;
use crate::seat::{Seat, empty_seat};
use lay_items::Snapshot;
use lay_point::NoMemory;
use std::alloc::Global;
use std::marker::Model;
use std::sync::ledger::{Blank, Ledger, Share};
use std::sync::{Mutex, ledger};
use undo_book::{Book, MAX_CALLS};
use undo_rules::{SessionCount, SessionId};

/// A book under a lock, with a fixed number of sessions. `L` tells its seats from those of other desks.
/// Contracts see the layout that it was made with, the number of sessions and the most logged calls.
#[derive(Drop)]
pub struct Desk<L: Ledger> {
    pub(crate) origin: Origin,
    pub(crate) lock: Mutex<Guarded<L>>,
}

impl<L: Ledger> Model for Desk<L> {
    ghost use Rattle.std.specs.Prelude.{◌≡◌};
    ghost use Rattle.desk_rules.specs.Legal.{Desk};
    ghost use Rattle.locked_desk.specs.Stored.{coded_desk};

    ghost Value = { Desk };

    ghost coded = { coded_desk };

    ghost view = { λ d. d.origin };

    ghost invariant = { λ d. d.origin.sessions ≡ L.parts };
}

impl<L: Ledger> Desk<L> {
    /// Returns a desk of this layout, with so many sessions and a seat for each. Its book logs `MAX_CALLS`
    /// calls at most.
    ///
    /// # Errors
    ///
    /// `NoMemory`, if an allocation fails.
    pub fn new(
        alloc: Global,
        base: Snapshot,
        sessions: u8,
        blank: Blank,
    ) -> Result<(Desk<L>, Vec<Seat<L>>), NoMemory>
        requires name { blank.name ≡ L.name }
        requires parts { blank.parts ≡ L.parts }
        requires one_each { blank.parts ≡ sessions }
        requires low { 1 ≤ sessions }
        requires high { sessions ≤ 64 }
        ensures desk { IfOk result (λ r. r.0 ≡ record { base = base; sessions = sessions; limit = MAX_CALLS }) }
        ensures seats { IfOk result (λ r. r.1.items ≡ empty_seats sessions) }
    {
        Desk::with_log(alloc, base, sessions, MAX_CALLS, blank)
    }

    /// Returns such a desk whose book logs as many calls as `limit` at most.
    ///
    /// # Errors
    ///
    /// `NoMemory`, if an allocation fails.
    pub fn with_log(
        alloc: Global,
        base: Snapshot,
        sessions: u8,
        limit: u32,
        blank: Blank,
    ) -> Result<(Desk<L>, Vec<Seat<L>>), NoMemory>
        requires name { blank.name ≡ L.name }
        requires parts { blank.parts ≡ L.parts }
        requires one_each { blank.parts ≡ sessions }
        requires low { 1 ≤ sessions }
        requires high { sessions ≤ 64 }
        requires some { 1 ≤ limit }
        requires most { limit ≤ MAX_CALLS }
        ensures desk { IfOk result (λ r. r.0 ≡ record { base = base; sessions = sessions; limit = limit }) }
        ensures seats { IfOk result (λ r. r.1.items ≡ empty_seats sessions) }
    {
        let sessions = SessionCount::new(sessions).unwrap();
        let (calls, rest) = blank.open::<L>();
        let (seats, counts) = seats_of(alloc, sessions, rest)?;
        let book = Book::with_log(alloc, base.share(alloc)?, limit)?;
        let origin = Origin {
            base,
            sessions,
            limit,
        };
        Ok((new_desk(origin, book, counts, calls), seats))
    }

    /// Returns the number of sessions.
    pub fn sessions(&self) -> u8
        ensures value { result ≡ self.now.sessions }
        ensures parts { result ≡ L.parts }
        ensures range { (1 ≤ result) × (result ≤ 64) }
    {
        self.origin.sessions.number()
    }

    /// Returns the same as a count of sessions.
    pub(crate) fn session_count(&self) -> SessionCount
        ensures { result ≡ self.now.sessions }
    {
        self.origin.sessions
    }
}

/// Returns whether the two are the same layout.
pub(crate) fn is_same(one: &Snapshot, other: &Snapshot) -> bool
    ensures same { result ≡ true → one.now ≡ other.now }
    ensures other { result ≡ false → one.now ≢ other.now }
{
    *one == *other
}

/// Returns a seat for each session, which has a part of the share, and as many zeros.
fn seats_of<L: Ledger>(
    alloc: Global,
    sessions: SessionCount,
    share: Share<L>,
) -> Result<(Vec<Seat<L>>, Vec<usize>), NoMemory>
    requires parts { share.parts ≡ sessions }
    requires amount { share.amount ≡ 0 }
    ensures seats { IfOk result (λ r. r.0.items ≡ empty_seats sessions) }
    ensures counts { IfOk result (λ r. r.1.items ≡ replicate sessions 0) }
{
    let mut rest = share;
    let sessions = sessions.number();
    let mut seats = Vec::with_capacity(alloc, usize::from(sessions))?;
    let mut counts = Vec::with_capacity(alloc, usize::from(sessions))?;
    for i in 0..sessions {
        let share = rest.split_off(1, 0);
        let session = SessionId::new(i + 1).unwrap();
        seats.push(empty_seat(alloc, session, share))?;
        counts.push(0)?;
    }
    Ok((seats, counts))
}

/// Returns a desk of this origin, with as many sessions as the ledger has parts.
fn new_desk<L: Ledger>(
    origin: Origin,
    book: Book,
    counts: Vec<usize>,
    calls: ledger::Book<L>,
) -> Desk<L>
    requires all { origin.sessions ≡ L.parts }
    requires book { book ≡ fresh origin.base origin.limit }
    requires counts { counts.items ≡ replicate origin.sessions 0 }
    requires calls { calls.total ≡ 0 }
    ensures { result ≡ origin }
{
    let guarded = fresh_guard(origin.sessions, book, origin.limit, counts, calls);
    Desk {
        origin,
        lock: Mutex::new(guarded),
    }
}
