//! What a desk is made with.

use lay_items::Snapshot;
use std::marker::Model;
use undo_rules::SessionCount;

/// What a desk is made with: its layout, the number of its sessions, and how many calls its book logs at most.
#[derive(Drop)]
pub struct Origin {
    /// The layout.
    pub base: Snapshot,
    /// The number of sessions.
    pub sessions: SessionCount,
    /// The most logged calls.
    pub limit: u32,
}

impl Model for Origin {
    ghost use Rattle.desk_rules.specs.Legal.{Desk};
    ghost use Rattle.locked_desk.specs.Stored.{coded_desk};

    ghost Value = { Desk };

    ghost coded = { coded_desk };

    ghost view = { λ o. record { base = o.base; sessions = o.sessions; limit = o.limit } };
}
