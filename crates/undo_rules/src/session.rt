//! Sessions: their numbers, and how many there are.
ghost use Rattle.std.specs.Prelude.{◌≡◌, ◌-◌, ◌<◌, ◌≤◌, IfSome, Some, nat_le};

use std::marker::Model;

/// The most sessions of a book.
pub const MAX_SESSIONS: u8 = 64;

const _: () = prove!(MAX_SESSIONS == 64);

/// A session: its number, from 1 to [`MAX_SESSIONS`]. Contracts see the number.
#[derive(Clone, Copy, Debug, PartialEq, Eq)]
pub struct SessionId(u8);

impl Model for SessionId {
    ghost use Rattle.std.specs.Prelude.{ℕ, ◌≤◌};
    ghost use Rattle.undo_rules.specs.declared.session.TheConstants.{MAX_SESSIONS};

    ghost Value = { ℕ };

    ghost view = { λ s. s.0 };

    ghost invariant = { λ s. (1 ≤ s.0) × (s.0 ≤ MAX_SESSIONS) };

    ghost inverse = { λ n. record { 0 = n } };
}

impl SessionId {
    /// Returns the session of the number, or `None` where none has it.
    pub fn new(number: u8) -> Option<SessionId>
        ensures some { 1 ≤ number → number ≤ MAX_SESSIONS → result ≡ Some number }
        ensures only { IfSome result (λ session. (session ≡ number) × (1 ≤ number) × (number ≤ MAX_SESSIONS)) }
    {
        if number == 0 || number > MAX_SESSIONS {
            return None;
        }
        Some(SessionId(number))
    }

    /// Returns its number.
    pub fn number(self) -> u8
        ensures value { result ≡ self }
        ensures low { 1 ≤ self }
        ensures high { self ≤ MAX_SESSIONS }
    {
        self.0
    }

    /// Returns its place among the sessions, from 0.
    pub fn index(self) -> usize
        ensures value { result ≡ self - 1 }
        ensures low { 1 ≤ self }
        ensures high { self ≤ MAX_SESSIONS }
    {
        usize::from(self.0) - 1
    }
}

/// How many sessions there are, from 1 to [`MAX_SESSIONS`]. Contracts see the number.
#[derive(Clone, Copy, Debug, PartialEq, Eq)]
pub struct SessionCount(u8);

impl Model for SessionCount {
    ghost use Rattle.std.specs.Prelude.{ℕ, ◌≤◌};
    ghost use Rattle.undo_rules.specs.declared.session.TheConstants.{MAX_SESSIONS};

    ghost Value = { ℕ };

    ghost view = { λ s. s.0 };

    ghost invariant = { λ s. (1 ≤ s.0) × (s.0 ≤ MAX_SESSIONS) };

    ghost inverse = { λ n. record { 0 = n } };
}

impl SessionCount {
    /// Returns the number as that of sessions, or `None` where there can't be so many.
    pub fn new(number: u8) -> Option<SessionCount>
        ensures some { 1 ≤ number → number ≤ MAX_SESSIONS → result ≡ Some number }
        ensures only { IfSome result (λ sessions. (sessions ≡ number) × (1 ≤ number) × (number ≤ MAX_SESSIONS)) }
    {
        let last = SessionId::new(number)?;
        Some(SessionCount(last.number()))
    }

    /// Returns the number.
    pub fn number(self) -> u8
        ensures value { result ≡ self }
        ensures low { 1 ≤ self }
        ensures high { self ≤ MAX_SESSIONS }
    {
        self.0
    }

    /// Returns whether the session is among so many.
    pub fn has(self, session: SessionId) -> bool
        ensures { result ≡ nat_le session self }
    {
        session.0 <= self.0
    }
}
