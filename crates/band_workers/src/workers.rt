//! How many threads label the edges.
ghost use Rattle.std.specs.Prelude.{◌≡◌, ◌<◌, ◌≤◌, IfSome, Some};

use std::marker::Model;

/// The most workers.
pub const MAX_WORKERS: u8 = 64;

const _: () = prove!(MAX_WORKERS == 64);

/// How many threads label the edges, from 1 to [`MAX_WORKERS`]. Contracts see the number.
#[derive(Clone, Copy, Debug, PartialEq, Eq)]
pub struct Workers(u8);

impl Model for Workers {
    ghost use Rattle.std.specs.Prelude.{ℕ, ◌≤◌};
    ghost use Rattle.band_workers.specs.declared.workers.TheConstants.{MAX_WORKERS};

    ghost Value = { ℕ };

    ghost view = { λ w. w.0 };

    ghost invariant = { λ w. (1 ≤ w.0) × (w.0 ≤ MAX_WORKERS) };

    ghost inverse = { λ n. record { 0 = n } };
}

impl Workers {
    /// Returns the number as that of workers, or `None` where there can't be so many.
    pub fn new(number: u8) -> Option<Workers>
        ensures some { 1 ≤ number → number ≤ MAX_WORKERS → result ≡ Some number }
        ensures only { IfSome result (λ workers. (workers ≡ number) × (1 ≤ number) × (number ≤ MAX_WORKERS)) }
    {
        if number == 0 || number > MAX_WORKERS {
            return None;
        }
        Some(Workers(number))
    }

    /// Returns so many workers, or as near to so many as there can be.
    pub fn nearest(number: u8) -> Workers
        ensures same { 1 ≤ number → number ≤ MAX_WORKERS → result ≡ number }
        ensures none { number ≡ 0 → result ≡ 1 }
        ensures more { MAX_WORKERS < number → result ≡ MAX_WORKERS }
    {
        Workers(number.max(1).min(MAX_WORKERS))
    }

    /// Returns the number.
    pub fn number(self) -> u8
        ensures value { result ≡ self }
        ensures low { 1 ≤ self }
        ensures high { self ≤ MAX_WORKERS }
    {
        self.0
    }
}
