//! Seats: tokens of sessions.
ghost use Rattle.std.specs.Prelude.{◌≡◌, []};

use desk_rules::SeatCall;
use std::alloc::Global;
use std::marker::Model;
use std::sync::ledger::{Ledger, Share};
use undo_rules::SessionId;

/// A session's token: its logged calls, and its share of the desk's count of calls. It can't be copied.
/// Contracts see the session and its calls.
#[derive(Drop)]
pub struct Seat<L: Ledger> {
    pub(crate) session: SessionId,
    pub(crate) own: Vec<SeatCall>,
    pub(crate) share: Share<L>,
}

impl<L: Ledger> Model for Seat<L> {
    ghost use Rattle.std.specs.Prelude.{◌≡◌, length};
    ghost use Rattle.desk_rules.specs.Seats.{AreCallsRising, Seat, coded_seat};

    ghost Value = { Seat };

    ghost coded = { coded_seat };

    ghost view = { λ s. record { session = s.session; own = s.own.items } };

    ghost invariant = { λ s. AreCallsRising s.session 0 s.own.items × (s.share.parts ≡ 1)
        × (s.share.amount ≡ length s.own.items) };
}

impl<L: Ledger> Seat<L> {
    /// Returns the session.
    pub fn session(&self) -> u8
        ensures value { result ≡ self.now.session }
    {
        self.session.number()
    }

    /// Lends the session's logged calls with their places, in order.
    pub fn own(&self) -> &[SeatCall]
        ensures { result.now ≡ self.now.own }
    {
        self.own.as_slice()
    }
}

/// Returns the seat of a session without calls.
pub(crate) fn empty_seat<L: Ledger>(alloc: Global, session: SessionId, share: Share<L>) -> Seat<L>
    requires parts { share.parts ≡ 1 }
    requires amount { share.amount ≡ 0 }
    ensures { result ≡ record { session = session; own = [] } }
{
    Seat {
        session,
        own: Vec::new(alloc),
        share,
    }
}
