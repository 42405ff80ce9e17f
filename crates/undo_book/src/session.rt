//! What a book keeps of each session.
ghost use Rattle.std.specs.Prelude.{◌≡◌, ◌≤◌, ◌-◌, IfOk, replicate};
ghost use Rattle.std.specs.Prelude.{slice_index_or, slice_set, vec_len};
ghost use Rattle.undo_rules.specs.Steps.{ended_state, is_pending, unused};

use lay_items::Snapshot;
use lay_point::NoMemory;
use std::alloc::Global;
use std::marker::Model;
use txn_marks::agrees;
use txn_work::Work;
use undo_rules::{MAX_SESSIONS, SessionId};

/// A transaction that a session opened last and that has not ended yet. Contracts see the place of its open
/// in the log, and the layout then.
#[derive(Drop)]
pub struct Pending {
    /// The place of its open in the log.
    pub place: u32,
    /// The layout then.
    pub snapshot: Snapshot,
}

impl Model for Pending {
    ghost use Rattle.undo_rules.specs.Books.{Pending};
    ghost use Rattle.undo_book.specs.Coded.{coded_pending};

    ghost Value = { Pending };

    ghost coded = { coded_pending };

    ghost view = { λ p. record { place = p.place; snapshot = p.snapshot } };
}

/// What a book keeps of a session. Contracts see how many of its opens were accepted, of which the last has
/// this number, and the last one, if it has not ended yet.
#[derive(Drop)]
pub struct SessionState {
    /// How many opens were accepted.
    pub opens: u16,
    /// The last one, if it has not ended yet.
    pub pending: Option<Pending>,
}

impl Model for SessionState {
    ghost use Rattle.undo_rules.specs.Books.{SessionState};
    ghost use Rattle.undo_book.specs.Coded.{coded_session_state};

    ghost Value = { SessionState };

    ghost coded = { coded_session_state };

    ghost view = { λ s. record { opens = s.opens; pending = s.pending } };
}

impl SessionState {
    /// Returns a session that never opened a transaction.
    pub(crate) fn unused() -> SessionState
        ensures { result ≡ unused }
    {
        SessionState {
            opens: 0,
            pending: None,
        }
    }

    /// Returns how many of its opens were accepted.
    pub fn opens(&self) -> u16
        ensures { result ≡ self.now.opens }
    {
        self.opens
    }

    /// Returns whether the work is the pending one, and the layout at its open is as the work's snapshot
    /// has it on what it touched.
    pub fn awaits(&self, work: &Work) -> bool
        ensures { result ≡ is_pending self.now.pending work.now }
    {
        match &self.pending {
            None => false,
            Some(pending) => pending.is_of(work),
        }
    }

    /// Drops what is pending, since it has ended.
    pub fn end(&mut self)
        ensures { self.new ≡ ended_state self.old }
    {
        self.pending = None;
    }
}

impl Pending {
    ghost use Rattle.std.specs.Prelude.{◌==◌, ◌&&◌};
    ghost use Rattle.txn_commands.specs.Compared.{agrees};

    /// Returns whether the work was opened at this place, and agrees with this layout on what it touched.
    fn is_of(&self, work: &Work) -> bool
        ensures { result ≡ ((self.now.place == work.now.opened)
            && agrees self.now.snapshot work.now.snapshot work.now.footprint) }
    {
        self.place == work.opened() && agrees(&self.snapshot, work.snapshot(), work.footprint())
    }
}

/// Returns what is kept of `MAX_SESSIONS` sessions that never opened a transaction.
pub(crate) fn unused_sessions(alloc: Global) -> Result<Vec<SessionState>, NoMemory>
    ensures { IfOk result (λ sessions. sessions.items ≡ replicate MAX_SESSIONS unused) }
{
    let mut sessions = Vec::with_capacity(alloc, usize::from(MAX_SESSIONS))?;
    for _ in 0..MAX_SESSIONS {
        sessions.push(SessionState::unused())?;
    }
    Ok(sessions)
}

/// Drops what the session has pending, since it has ended.
pub(crate) fn end_pending(sessions: &mut Vec<SessionState>, session: SessionId)
    requires { session ≤ vec_len sessions.old }
    ensures { sessions.new.items ≡ slice_set sessions.old.items (session - 1)
        (ended_state (slice_index_or sessions.old.items (session - 1) unused)) }
{
    sessions[session.index()].end();
}
