//! Snapshots of a desk.
ghost use Rattle.std.specs.Prelude.{IfErr, IfOk};
ghost use Rattle.desk_rules.specs.Close.{Shows};
ghost use Rattle.locked_desk.specs.Desks.{IsShownFault};

use crate::desk::{Desk, is_same};
use crate::fault::DeskFault;
use crate::seat::Seat;
use lay_items::Snapshot;
use std::alloc::Global;
use std::sync::Wait;
use std::sync::ledger::Ledger;

impl<L: Ledger> Desk<L> {
    /// Returns the layout after a legal log in which the calls of the seat's session are the seat's.
    ///
    /// # Errors
    ///
    /// `Differs` with the first of the seat's calls that the log doesn't have at its place, or with the seat's last, if the
    /// log has others of the session; `Differs` of session 0, if what is behind the lock isn't the desk's own. `NoMemory` can
    /// stand in place of any answer.
    ///
    /// # Cost
    ///
    /// A pass over the seat's calls.
    pub fn snapshot<R: Wait>(
        &self,
        rt: &R,
        alloc: Global,
        seat: &Seat<L>,
    ) -> Result<Snapshot, DeskFault>
        ensures shows { IfOk result (λ layout. Shows self.now seat.now layout) }
        ensures fault { IfErr result (λ fault. IsShownFault self.now seat.now fault) }
    {
        // for the proof: sessions are numbered from 1
        seat.session.number();
        let shown = self
            .entered(rt)
            .snapshot(alloc, &self.origin, seat.session, seat.own.as_slice());
        match shown {
            Ok((layout, base)) => {
                if !is_same(&base, &self.origin.base) {
                    return Err(DeskFault::Differs {
                        session: 0,
                        place: 0,
                    });
                }
                Ok(layout)
            }
            Err(fault) => Err(fault),
        }
    }
}
