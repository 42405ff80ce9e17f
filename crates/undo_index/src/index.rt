//! Who wrote and who read what.
ghost use Rattle.std.specs.Prelude.{◌≡◌, OnErr, OnOk};
ghost use Rattle.undo_index.specs.Listed.{AreAdded, AreRemoved, IsNew, nothing_listed};

use crate::listing::Listing;
use lay_point::NoMemory;
use std::alloc::Global;
use txn_commands::TxnId;
use txn_marks::Elements;

/// The live transactions of a history, by what they wrote and by what they touched, but for the items that they
/// made: an id tells who made it.
#[derive(Drop)]
pub struct Index {
    /// Under each element the places of the live transactions that wrote it and didn't make it.
    pub writers: Listing,
    /// Under each element the places of the live transactions that read or wrote it and didn't make it.
    pub readers: Listing,
}

impl Index {
    /// Returns the index of no history.
    pub fn new(alloc: Global) -> Index
        ensures writers { result.writers ≡ nothing_listed }
        ensures readers { result.readers ≡ nothing_listed }
    {
        Index {
            writers: Listing::new(alloc),
            readers: Listing::new(alloc),
        }
    }

    /// Lists a transaction as live, with the elements that it wrote and those that it touched: under those of
    /// them that it didn't make. Out of memory all stays as it was where it isn't listed.
    ///
    /// # Errors
    ///
    /// `NoMemory`, if an allocation fails.
    ///
    /// # Cost
    ///
    /// That of `Listing::add`.
    pub fn enter(
        &mut self,
        txn: TxnId,
        met: &Elements,
        footprint: &Elements,
        place: usize,
    ) -> Result<(), NoMemory>
        ensures writers { OnOk result (AreAdded self.old.writers txn met.now place self.new.writers) }
        ensures readers { OnOk result (AreAdded self.old.readers txn footprint.now place self.new.readers) }
        ensures same_writers { OnErr result (IsNew self.old.writers place → self.new.writers ≡ self.old.writers) }
        ensures same_readers { OnErr result (IsNew self.old.readers place → self.new.readers ≡ self.old.readers) }
    {
        self.writers.add(txn, met, place)?;
        if self.readers.add(txn, footprint, place).is_err() {
            self.writers.remove(txn, met, place);
            return Err(NoMemory {});
        }
        Ok(())
    }

    /// Lists a transaction as live no longer.
    ///
    /// # Cost
    ///
    /// That of `Listing::remove`.
    pub fn leave(&mut self, txn: TxnId, met: &Elements, footprint: &Elements, place: usize)
        ensures writers { AreRemoved self.old.writers txn met.now place self.new.writers }
        ensures readers { AreRemoved self.old.readers txn footprint.now place self.new.readers }
    {
        self.writers.remove(txn, met, place);
        self.readers.remove(txn, footprint, place);
    }
}
