//! What is made of a work when it ends.
ghost use Rattle.std.specs.Prelude.{◌≡◌, IfOk};
ghost use Rattle.txn_marks.specs.Marks.{AreMarksOf};

use crate::work::Work;
use lay_items::Snapshot;
use lay_point::{NoMemory, Sequence};
use std::alloc::Global;
use txn_commands::{CmdFault, Command};
use txn_marks::{Footprint, Marks, Writes};

/// What is left of a work that has ended: trees, and layouts that it held. Dropping it takes time.
#[derive(Drop)]
pub struct Spent {
    snapshot: Snapshot,
    whole: Option<Snapshot>,
    writes: Writes,
    footprint: Footprint,
    refused: Option<(Command, CmdFault)>,
}

impl Work {
    /// Makes what a history keeps of it, where that isn't made. A commit needs it; a session that shares a book
    /// has it made before it waits for the book.
    ///
    /// # Errors
    ///
    /// `NoMemory`, if an allocation fails.
    ///
    /// # Cost
    ///
    /// That of [`Marks::of`].
    pub fn prepare(&mut self, alloc: Global) -> Result<(), NoMemory>
        ensures { self.new ≡ self.old }
    {
        if self.marks.is_none() {
            let marks = Marks::of(alloc, &self.writes, &self.footprint)?;
            self.marks = Some(marks);
        }
        Ok(())
    }

    /// Takes out what a history keeps of it, and makes that where it isn't made.
    ///
    /// # Errors
    ///
    /// `NoMemory`, if an allocation fails.
    pub fn take_marks(&mut self, alloc: Global) -> Result<Marks, NoMemory>
        ensures same { self.new ≡ self.old }
        ensures marks { IfOk result (AreMarksOf self.old.writes self.old.footprint) }
    {
        match self.marks.take() {
            Some(marks) => Ok(marks),
            None => Marks::of(alloc, &self.writes, &self.footprint),
        }
    }

    /// Returns its commands, and what is left of it.
    pub fn into_commands(self) -> (Sequence<Command>, Spent)
        ensures { result.0 ≡ self.commands }
    {
        let mut commands = self.commands;
        commands.shrink_to_fit();
        let spent = Spent {
            snapshot: self.snapshot,
            whole: self.whole,
            writes: self.writes,
            footprint: self.footprint,
            refused: self.refused,
        };
        (Sequence::from_vec(commands), spent)
    }
}
