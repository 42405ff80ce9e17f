//! What a book keeps of the changes in its log.
ghost use Rattle.std.specs.Prelude.{◌≡◌, ◌+◌, ◌<◌, ◌++◌, [], ◌∷◌, OnOk, None, slice_get, slice_set};
ghost use Rattle.std.specs.Prelude.{vec_capacity, vec_len};
ghost use Rattle.undo_book.specs.Changes.{is_unchanged_since};

use lay_point::NoMemory;
use std::alloc::Global;

/// Where transactions were changed: committed, undone or redone. The changes of each are linked, from its last
/// one back to its commit, so whether a change is the first since a call is known without a search.
#[derive(Drop)]
pub struct Changes {
    /// Of each logged call the place of the last one before it that changed the same transaction.
    pub previous_change: Vec<Option<u32>>,
    /// Of each committed transaction the place of the last call that changed it.
    pub(crate) last: Vec<u32>,
    /// The place behind the last call that changed a transaction again: that undid or redid it. 0 at first.
    pub last_undo_or_redo: usize,
}

impl Changes {
    /// Returns what is kept of no calls.
    pub fn new(alloc: Global) -> Changes
        ensures previous_change { result.previous_change.items ≡ [] }
        ensures last { result.last.items ≡ [] }
        ensures last_undo_or_redo { result.last_undo_or_redo ≡ 0 }
    {
        Changes {
            previous_change: Vec::new(alloc),
            last: Vec::new(alloc),
            last_undo_or_redo: 0,
        }
    }

    /// Reserves room for one more call.
    ///
    /// # Errors
    ///
    /// `NoMemory`, if an allocation fails.
    pub fn reserve_call(&mut self) -> Result<(), NoMemory>
        ensures previous_change { self.new.previous_change.items ≡ self.old.previous_change.items }
        ensures last { self.new.last.items ≡ self.old.last.items }
        ensures last_undo_or_redo { self.new.last_undo_or_redo ≡ self.old.last_undo_or_redo }
        ensures room { OnOk result (vec_len self.new.previous_change < vec_capacity self.new.previous_change) }
    {
        self.previous_change.reserve(1)?;
        Ok(())
    }

    /// Reserves room for one more call and one more transaction.
    ///
    /// # Errors
    ///
    /// `NoMemory`, if an allocation fails.
    pub fn reserve_commit(&mut self) -> Result<(), NoMemory>
        ensures previous_change { self.new.previous_change.items ≡ self.old.previous_change.items }
        ensures last { self.new.last.items ≡ self.old.last.items }
        ensures last_undo_or_redo { self.new.last_undo_or_redo ≡ self.old.last_undo_or_redo }
        ensures room { OnOk result (vec_len self.new.previous_change < vec_capacity self.new.previous_change) }
        ensures room_of_last { OnOk result (vec_len self.new.last < vec_capacity self.new.last) }
    {
        self.previous_change.reserve(1)?;
        self.last.reserve(1)?;
        Ok(())
    }

    /// Keeps that the next call changes no transaction.
    pub fn add_unchanged(&mut self)
        requires room { vec_len self.old.previous_change < vec_capacity self.old.previous_change }
        ensures previous_change { self.new.previous_change.items ≡ self.old.previous_change.items ++ None ∷ [] }
        ensures last { self.new.last.items ≡ self.old.last.items }
        ensures last_undo_or_redo { self.new.last_undo_or_redo ≡ self.old.last_undo_or_redo }
    {
        self.previous_change.push(None).unwrap();
    }

    /// Keeps that the next call, at this place, commits the next transaction.
    pub fn add_commit(&mut self, place: u32)
        requires room { vec_len self.old.previous_change < vec_capacity self.old.previous_change }
        requires room_of_last { vec_len self.old.last < vec_capacity self.old.last }
        ensures previous_change { self.new.previous_change.items ≡ self.old.previous_change.items ++ None ∷ [] }
        ensures last { self.new.last.items ≡ self.old.last.items ++ place ∷ [] }
        ensures last_undo_or_redo { self.new.last_undo_or_redo ≡ self.old.last_undo_or_redo }
    {
        self.previous_change.push(None).unwrap();
        self.last.push(place).unwrap();
    }

    /// Keeps that the next call, at this place, changes the transaction at this index again.
    pub fn add_undo_or_redo(&mut self, index: usize, place: u32)
        requires index { index < vec_len self.old.last }
        requires room { vec_len self.old.previous_change < vec_capacity self.old.previous_change }
        ensures previous_change { self.new.previous_change.items ≡ self.old.previous_change.items ++ slice_get self.old.last.items index ∷ [] }
        ensures last { self.new.last.items ≡ slice_set self.old.last.items index place }
        ensures last_undo_or_redo { self.new.last_undo_or_redo ≡ place + 1 }
    {
        self.previous_change.push(Some(self.last[index])).unwrap();
        self.last[index] = place;
        self.last_undo_or_redo = place as usize + 1;
    }
}

/// Returns whether there is no such call, or it lies before this place of the log.
pub(crate) fn is_before(earlier: Option<u32>, since: usize) -> bool
    ensures { result ≡ is_unchanged_since earlier since }
{
    match earlier {
        Some(earlier) => (earlier as usize) < since,
        None => true,
    }
}
