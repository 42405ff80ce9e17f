//! Opens.
ghost use Rattle.std.specs.Prelude.{◌≡◌, ◌<◌, ◌≤◌, IfOk, OnErr, OnOk, Err, false, true};
ghost use Rattle.undo_rules.specs.Steps.{after_open, is_log_full, open_step, opening, state_of};
ghost use Rattle.undo_book.specs.Calls.{Takes};

use crate::book::Book;
use crate::session::{Pending, SessionState};
use lay_point::NoMemory;
use std::alloc::Global;
use txn_commands::TxnId;
use txn_work::Work;
use undo_rules::{Answer, BookFault, Call, Logged, SessionId};

/// The most transactions of a session.
pub const MAX_TRANSACTIONS: u16 = 65_535;

const _: () = prove!(MAX_TRANSACTIONS == 65_535);

impl Book {
    /// Opens the next transaction of a session, on the layout as it is, and drops what the session has open.
    ///
    /// # Errors
    ///
    /// `LogFull`, then `SessionFull`, if the session has as many transactions as it may have, which is logged; `NoMemory`
    /// in place of `SessionFull`.
    pub fn open(&mut self, alloc: Global, session: u8) -> Result<Work, BookFault>
        requires low { 1 ≤ session }
        requires high { session ≤ 64 }
        ensures step { Takes self.old (open_step self.old session) result self.new }
        ensures full { is_log_full self.old ≡ true → result ≡ Err BookFault.LogFull }
    {
        let session = SessionId::new(session).unwrap();
        if self.is_full() {
            return Err(BookFault::LogFull);
        }
        if self.opens(session) >= MAX_TRANSACTIONS {
            self.log_refusal(session, Call::Open, BookFault::SessionFull)?;
            return Err(BookFault::SessionFull);
        }
        Ok(self.open_next(alloc, session)?)
    }

    /// Returns how many opens of the session were accepted.
    fn opens(&self, session: SessionId) -> u16
        ensures { result ≡ (state_of self.now session).opens }
    {
        self.sessions[session.index()].opens()
    }

    /// Opens the next transaction of a session, for which there is room.
    fn open_next(&mut self, alloc: Global, session: SessionId) -> Result<Work, NoMemory>
        requires log { is_log_full self.old ≡ false }
        requires room { (state_of self.old session).opens < MAX_TRANSACTIONS }
        ensures work { IfOk result (λ work. work ≡ opening self.old session) }
        ensures ok { OnOk result (self.new ≡ after_open self.old session) }
        ensures err { OnErr result (self.new ≡ self.old) }
    {
        let txn = self.opens(session) + 1;
        let place = self.log.len() as u32;
        let given = self.layout.share(alloc)?;
        let snapshot = self.layout.share(alloc)?;
        self.log.reserve(1)?;
        self.changes.reserve_call()?;
        self.sessions[session.index()] = SessionState {
            opens: txn,
            pending: Some(Pending { place, snapshot }),
        };
        let session = session.number();
        let logged = Logged {
            session,
            call: Call::Open,
            answer: Answer::Opened(txn),
        };
        self.log.push(logged).unwrap();
        self.changes.add_unchanged();
        Ok(Work::new(alloc, given, TxnId { session, txn }, place))
    }
}
