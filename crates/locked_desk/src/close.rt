//! Closing a desk with its seats.
ghost use Rattle.std.specs.Prelude.{◌≡◌, ◌+◌, ◌-◌, ◌<◌, ◌≤◌, IfErr, IfOk, IsNone, IfSome, false, length};
ghost use Rattle.desk_rules.specs.Close.{
  AreSeatsRising,
  HasAll,
  IsClosed,
  has_seat,
  missing_call,
  own_total,
};
ghost use Rattle.locked_desk.specs.Closing.{Began, IsOtherOrigin, IsRefusedClose};

use crate::desk::{Desk, is_same};
use crate::guarded::Guarded;
use crate::origin::Origin;
use crate::seat::Seat;
use desk_rules::missing_place;
use std::sync::ledger;
use std::sync::ledger::{Ledger, Share};
use undo_book::Book;
use undo_rules::{Logged, SessionCount};

/// What is left of a closed desk.
#[derive(Drop)]
pub struct Closed {
    /// Its book. The closed log and layout are the book's.
    pub book: Book,
}

/// A refused close.
#[derive(Drop)]
pub enum CloseRefusal<L: Ledger> {
    /// A session has no seat.
    MissingSeat {
        /// The least such session.
        session: u8,
        /// The desk.
        desk: Desk<L>,
        /// The seats.
        seats: Vec<Seat<L>>,
    },
    /// The log doesn't have this call of a seat at its place; or, with session 0 and place 0, the book hasn't
    /// the layout and the limit that the desk was made with.
    Differs {
        /// The session, or 0.
        session: u8,
        /// The place of the call in the log, from 0.
        place: usize,
        /// The book that was behind the lock.
        book: Book,
        /// The seats.
        seats: Vec<Seat<L>>,
    },
}

impl<L: Ledger> Desk<L> {
    /// Ends the desk with all its seats.
    ///
    /// # Errors
    ///
    /// `MissingSeat`, if a session has none, then `Differs`, if the log doesn't have a call of a seat at its place, or the
    /// book not the desk's base and limit. All is handed back.
    ///
    /// # Cost
    ///
    /// A pass over the calls of all seats.
    pub fn close(self, seats: Vec<Seat<L>>) -> Result<Closed, CloseRefusal<L>>
        ensures closed { IfOk result (λ closed. IsClosed self seats.items closed.book) }
        ensures refused { IfErr result (λ refusal. IsRefusedClose self seats.items refusal) }
    {
        match missing_seat(seats.as_slice(), self.session_count()) {
            Some(session) => Err(CloseRefusal::MissingSeat {
                session,
                desk: self,
                seats,
            }),
            None => close_all(self, seats),
        }
    }
}

/// Ends a desk of which each session has a seat.
fn close_all<L: Ledger>(desk: Desk<L>, seats: Vec<Seat<L>>) -> Result<Closed, CloseRefusal<L>>
    requires { HasAll desk.sessions seats.items }
    ensures closed { IfOk result (λ closed. IsClosed desk seats.items closed.book) }
    ensures refused { IfErr result (λ refusal. IsRefusedClose desk seats.items refusal) }
{
    let Desk { origin, lock } = desk;
    // for the proof: there is a session
    origin.sessions.number();
    let Guarded {
        sessions: _,
        book,
        limit,
        counts: _,
        calls,
    } = lock.into_inner();
    let mut calls = calls;
    let seats = audited(seats, &mut calls);
    match missing_call(book.log(), seats.as_slice()) {
        Some((session, place)) => Err(CloseRefusal::Differs {
            session,
            place,
            book,
            seats,
        }),
        None => by_origin(&origin, book, limit, seats),
    }
}

/// Ends a desk whose log has all calls of the seats, if its book has the desk's base and limit.
fn by_origin<L: Ledger>(
    origin: &Origin,
    book: Book,
    limit: u32,
    seats: Vec<Seat<L>>,
) -> Result<Closed, CloseRefusal<L>>
    requires { limit ≡ book.limit }
    ensures closed { IfOk result (λ closed. (closed.book ≡ book) × Began origin.now book) }
    ensures refused { IfErr result (λ refusal. IsOtherOrigin origin.now seats.items book refusal) }
{
    if limit == origin.limit && is_same(book.base(), &origin.base) {
        return Ok(Closed { book });
    }
    Err(CloseRefusal::Differs {
        session: 0,
        place: 0,
        book,
        seats,
    })
}

/// Returns whether the session has a seat.
fn has_seat<L: Ledger>(seats: &[Seat<L>], session: u8) -> bool
    ensures { result ≡ has_seat session seats.now }
{
    let mut rest = seats;
    while let Some((seat, after)) = rest.split_first() {
        if seat.session() == session {
            return true;
        }
        rest = after;
    }
    false
}

/// Returns the least of the sessions without a seat.
pub(crate) fn missing_seat<L: Ledger>(seats: &[Seat<L>], sessions: SessionCount) -> Option<u8>
    ensures none { IsNone result → HasAll sessions seats.now }
    ensures some { IfSome result (λ s. (1 ≤ s) × (s ≤ sessions) × (has_seat s seats.now ≡ false)) }
    ensures least { IfSome result (λ s. HasAll (s - 1) seats.now) }
{
    for session in 1..sessions.number() + 1 {
        if !has_seat(seats, session) {
            return Some(session);
        }
    }
    None
}

/// Returns the first call of a seat that the log doesn't have at its place, as its session and its place.
fn missing_call<L: Ledger>(log: &[Logged], seats: &[Seat<L>]) -> Option<(u8, usize)>
    ensures { result ≡ missing_call log.now seats.now }
{
    let mut rest = seats;
    while let Some((seat, after)) = rest.split_first() {
        if let Some(place) = missing_place(log, seat.own()) {
            return Some((seat.session(), place));
        }
        rest = after;
    }
    None
}

/// Returns the same seats, and shows that those of all parts have as many calls as the ledger counts.
fn audited<L: Ledger>(seats: Vec<Seat<L>>, calls: &mut ledger::Book<L>) -> Vec<Seat<L>>
    requires part { 1 ≤ L.parts }
    requires some { 0 < length seats.items }
    ensures seats { result.items ≡ seats.items }
    ensures few { length seats.items ≤ L.parts }
    ensures whole { length seats.items ≡ L.parts → own_total seats.items ≡ calls.old.total }
    ensures rising { AreSeatsRising seats.items }
{
    let mut seats = seats;
    audit_all(seats.as_mut_slice(), calls);
    seats
}

/// Shows that the seats of all parts have as many calls as the ledger counts.
fn audit_all<L: Ledger>(seats: &mut [Seat<L>], calls: &mut ledger::Book<L>)
    requires part { 1 ≤ L.parts }
    requires some { 0 < length seats.old }
    ensures few { length seats.old ≤ L.parts }
    ensures whole { length seats.old ≡ L.parts → own_total seats.old ≡ calls.old.total }
    ensures rising { AreSeatsRising seats.old }
    ensures seats { seats.new ≡ seats.old }
{
    let Some((seat, rest)) = seats.split_first_mut() else {
        return;
    };
    let Seat {
        session: _,
        own,
        share,
    } = seat;
    // for the proof: how many calls the seat has
    let _count = own.len();
    audit(rest, share, calls);
}

/// The same with the seats of which the share has the parts already.
fn audit<L: Ledger>(seats: &mut [Seat<L>], seen: &mut Share<L>, calls: &mut ledger::Book<L>)
    requires { seen.old.parts ≤ L.parts }
    ensures few { seen.old.parts + length seats.old ≤ L.parts }
    ensures whole { seen.old.parts + length seats.old ≡ L.parts → seen.old.amount + own_total seats.old ≡ calls.old.total }
    ensures rising { AreSeatsRising seats.old }
    ensures seats { seats.new ≡ seats.old }
    ensures parts { seen.new.parts ≡ seen.old.parts }
    ensures amount { seen.new.amount ≡ seen.old.amount }
    ensures total { calls.new.total ≡ calls.old.total }
{
    calls.audit(seen);
    let Some((seat, rest)) = seats.split_first_mut() else {
        return;
    };
    let Seat {
        session: _,
        own,
        share,
    } = seat;
    let count = own.len() as u64;
    share.give(seen, 1, count);
    audit(rest, seen, calls);
    seen.give(share, 1, count);
}
