//! What undo and redo share: a transaction gets the other mark.
ghost use Rattle.std.specs.Prelude.{◌≡◌, IfOk, OnErr, OnOk, None, Some, false, true};
ghost use Rattle.lay_layouts.specs.Sound.{IsSound};
ghost use Rattle.txn_commands.specs.Records.{AreProper};
ghost use Rattle.undo_rules.specs.Steps.{is_log_full, with_mark};
ghost use Rattle.undo_index.specs.Listed.{IsNew};
ghost use Rattle.undo_book.specs.Indexed.{IsMetAt};
ghost use Rattle.undo_book.specs.Marks.{
  AreUpdated,
  after_mark,
  mark_answer,
  mark_call,
  mark_refusal,
  layout_by,
};
ghost use Rattle.undo_book.specs.Places.{place_of};
ghost use Rattle.undo_book.specs.Replays.{CanBeRedone, replay};

use crate::book::Book;
use crate::entry::{Entry, set_mark};
use lay_items::Snapshot;
use lay_point::NoMemory;
use std::alloc::Global;
use txn_commands::TxnId;
use txn_marks::{Elements, Records};
use undo_index::Index;
use undo_rules::{Answer, Call, Logged, SessionId};

impl Book {
    /// Marks the transaction at this place, whose records meet these elements, as live, or as undone, which
    /// nothing is against: applies what it wrote, or reverts it.
    pub(crate) fn set_live(
        &mut self,
        alloc: Global,
        session: SessionId,
        txn: TxnId,
        place: usize,
        met: &Elements,
        live: bool,
    ) -> Result<(), NoMemory>
        requires log { is_log_full self.old ≡ false }
        requires place { place_of txn self.old.entries ≡ Some place }
        requires met { IsMetAt self.old.entries place met.now }
        requires free { mark_refusal live self.old txn ≡ None }
        ensures ok { OnOk result (self.new ≡ after_mark live self.old session txn) }
        ensures replayed { OnOk result (replay (with_mark self.old live txn) ≡ Some self.new.layout) }
        ensures back { OnOk result (live ≡ false → CanBeRedone self.new session txn self.old.layout) }
        ensures err { OnErr result (self.new ≡ self.old) }
    {
        let entry = &self.entries[place];
        let layout = layout_by(alloc, &self.layout, &entry.writes, live)?;
        self.log.reserve(1)?;
        self.changes.reserve_call()?;
        update_index(&mut self.index, entry, met, place, live)?;
        self.changes.add_undo_or_redo(place, self.log.len() as u32);
        set_mark(&mut self.entries, place, live);
        self.log.push(marking(session, txn, live)).unwrap();
        self.layout = layout;
        Ok(())
    }
}

/// Returns the layout with the values after, or with those before.
fn layout_by(
    alloc: Global,
    layout: &Snapshot,
    writes: &Records,
    live: bool,
) -> Result<Snapshot, NoMemory>
    requires proper { AreProper writes.now }
    requires sound { IsSound (layout_by live layout.now writes.now) }
    ensures { IfOk result (λ new. new ≡ layout_by live layout.now writes.now) }
{
    if live {
        writes.applied(alloc, layout)
    } else {
        writes.reverted(alloc, layout)
    }
}

/// Lists a transaction at its place, as live or no longer, with the elements that its records meet. Only the first
/// can be out of memory, and then all stays as it was where it isn't listed.
fn update_index(
    index: &mut Index,
    entry: &Entry,
    met: &Elements,
    place: usize,
    live: bool,
) -> Result<(), NoMemory>
    ensures writers { OnOk result (AreUpdated live index.old.writers entry.now.txn met.now place index.new.writers) }
    ensures readers { OnOk result (AreUpdated live index.old.readers entry.now.txn entry.now.footprint place index.new.readers) }
    ensures live { OnErr result (live ≡ true) }
    ensures same_writers { OnErr result (IsNew index.old.writers place
        → index.new.writers ≡ index.old.writers) }
    ensures same_readers { OnErr result (IsNew index.old.readers place
        → index.new.readers ≡ index.old.readers) }
{
    if live {
        index.enter(entry.txn, met, &entry.footprint, place)?;
    } else {
        index.leave(entry.txn, met, &entry.footprint, place);
    }
    Ok(())
}

/// Returns the logged call that marked the transaction.
fn marking(session: SessionId, txn: TxnId, live: bool) -> Logged
    ensures { result ≡ record { session = session; call = mark_call live txn; answer = mark_answer live } }
{
    let (call, answer) = if live {
        (Call::Redo(txn), Answer::Redone)
    } else {
        (Call::Undo(txn), Answer::Undone)
    };
    Logged {
        session: session.number(),
        call,
        answer,
    }
}
