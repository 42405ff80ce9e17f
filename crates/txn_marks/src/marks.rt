//! What a history keeps of a committed transaction.
ghost use Rattle.std.specs.Prelude.{IfOk};
ghost use Rattle.txn_marks.specs.Marks.{AreMarksOf};

use crate::footprint::Footprint;
use crate::listed::Elements;
use crate::records::Records;
use crate::writes::Writes;
use lay_point::NoMemory;
use std::alloc::Global;

/// What a history keeps of a committed transaction, in lists that don't grow. They are made of the transaction
/// alone: no layout and no history is looked at.
#[derive(Debug, Drop)]
pub struct Marks {
    /// What it wrote.
    pub wrote: Records,
    /// The elements in which that lies.
    pub met: Elements,
    /// The elements that it read or wrote.
    pub touched: Elements,
}

impl Marks {
    /// Returns those of a transaction that wrote this and has this footprint.
    ///
    /// # Errors
    ///
    /// `NoMemory`, if an allocation fails.
    ///
    /// # Cost
    ///
    /// A pass over the records and over the footprint, and a sort of the elements that the records meet.
    pub fn of(alloc: Global, writes: &Writes, footprint: &Footprint) -> Result<Marks, NoMemory>
        ensures { IfOk result (AreMarksOf writes.now footprint.now) }
    {
        let wrote = Records::of(alloc, writes)?;
        let met = Elements::met_by(alloc, &wrote)?;
        let touched = Elements::of(alloc, footprint)?;
        Ok(Marks {
            wrote,
            met,
            touched,
        })
    }
}
