//! The layout of what is behind the lock, for a session that has all its calls there.
ghost use Rattle.std.specs.Prelude.{◌≡◌, ◌⊎◌, ◌≤◌, IfErr, IfOk, None};
ghost use Rattle.desk_rules.specs.Close.{missing_place};
ghost use Rattle.desk_rules.specs.Guards.{Fits};
ghost use Rattle.desk_rules.specs.Legal.{IsFrom, on_base};
ghost use Rattle.desk_rules.specs.Seats.{AreCallsRising, own_calls};
ghost use Rattle.locked_desk.specs.Desks.{IsShownFault};

use crate::desk::is_same;
use crate::fault::DeskFault;
use crate::guarded::{Guarded, last_place};
use crate::origin::Origin;
use desk_rules::{SeatCall, missing_place};
use lay_items::Snapshot;
use std::alloc::Global;
use std::sync::ledger::Ledger;
use undo_rules::SessionId;

impl<L: Ledger> Guarded<L> {
    /// Returns the refusal of a snapshot that names this place, or session 0, where this isn't of a desk of this
    /// origin.
    fn missed(&self, origin: &Origin, session: SessionId, place: usize) -> DeskFault
        ensures { ((result ≡ DeskFault.Differs session place) × Fits origin.now self.now × IsFrom origin.now self.now.book)
            ⊎ (result ≡ DeskFault.Differs 0 0) }
    {
        if self.fits(origin) && is_same(self.book.base(), &origin.base) {
            let session = session.number();
            return DeskFault::Differs { session, place };
        }
        DeskFault::Differs {
            session: 0,
            place: 0,
        }
    }

    /// Returns the layout and the base, where the log has just these calls of the session. The first that it
    /// doesn't have is named.
    pub fn snapshot(
        &self,
        alloc: Global,
        origin: &Origin,
        session: SessionId,
        own: &[SeatCall],
    ) -> Result<(Snapshot, Snapshot), DeskFault>
        requires rising { AreCallsRising session 0 own.now }
        ensures value { IfOk result (λ r. (r.0 ≡ self.now.book.layout) × (r.1 ≡ self.now.book.base)) }
        ensures own { IfOk result (λ r. own_calls session self.now.book.log ≡ own.now) }
        ensures high { IfOk result (λ r. session ≤ origin.now.sessions) }
        ensures legal { IfOk result (λ r. IsFrom (on_base self.now.book.base origin.now) self.now.book) }
        ensures refused { IfErr result (λ fault. IsShownFault origin.now (record { session = session; own = own.now }) fault) }
    {
        match missing_place(self.book.log(), own) {
            Some(place) => Err(self.missed(origin, session, place)),
            None => self.shared(alloc, origin, session, own),
        }
    }

    /// Returns the same, where the log has all these calls, if it has no others of the session.
    fn shared(
        &self,
        alloc: Global,
        origin: &Origin,
        session: SessionId,
        own: &[SeatCall],
    ) -> Result<(Snapshot, Snapshot), DeskFault>
        requires rising { AreCallsRising session 0 own.now }
        requires there { missing_place self.now.book.log own.now ≡ None }
        ensures value { IfOk result (λ r. (r.0 ≡ self.now.book.layout) × (r.1 ≡ self.now.book.base)) }
        ensures own { IfOk result (λ r. own_calls session self.now.book.log ≡ own.now) }
        ensures high { IfOk result (λ r. session ≤ origin.now.sessions) }
        ensures legal { IfOk result (λ r. IsFrom (on_base self.now.book.base origin.now) self.now.book) }
        ensures refused { IfErr result (λ fault. IsShownFault origin.now (record { session = session; own = own.now }) fault) }
    {
        // for the proof: what is behind the lock is a guard
        let _sessions = self.sessions;
        if !self.has_last(session, own) {
            return Err(self.missed(origin, session, last_place(own)));
        }
        if !self.fits(origin) {
            return Err(DeskFault::Differs {
                session: 0,
                place: 0,
            });
        }
        let layout = self.book.snapshot().share(alloc)?;
        let base = self.book.base().share(alloc)?;
        Ok((layout, base))
    }
}
