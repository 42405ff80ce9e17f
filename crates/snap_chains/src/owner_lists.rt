//! Lists of owners, one for each of some edges.
//!
//! All owners are in one list: a list for each edge would take an allocation each.
ghost use Rattle.std.specs.Prelude.{◌≡◌, ◌<◌, [], IfOk, Some, length, replicate, slice_get};

use crate::owner::Owner;
use std::alloc::{AllocError, Global};
use std::marker::Model;

/// Where a list begins, and where it ends.
#[derive(Clone, Copy, Debug)]
pub(crate) struct Part {
    pub from: u32,
    pub to: u32,
}

/// A list of owners for each of some edges, all in one. Contracts see the list of the lists.
#[derive(Debug, Drop)]
pub(crate) struct OwnerLists {
    pub owners: Vec<Owner>,
    pub parts: Vec<Part>,
}

impl Model for OwnerLists {
    ghost use Rattle.std.specs.Prelude.{All, List, length};
    ghost use Rattle.snap_chains.specs.declared.owner.Owner.{Owner};
    ghost use Rattle.snap_chains.specs.OwnerLists.{IsInside, owner_lists_of};

    ghost Value = { List (List Owner) };

    ghost view = { λ l. owner_lists_of l.owners.items l.parts.items };

    ghost invariant = { λ l. All (IsInside (length l.owners.items)) l.parts.items };
}

impl OwnerLists {
    /// Returns so many empty lists.
    ///
    /// # Errors
    ///
    /// `AllocError`, if an allocation fails.
    pub fn empty(alloc: Global, count: usize) -> Result<OwnerLists, AllocError>
        ensures { IfOk result (λ lists. lists ≡ replicate count []) }
    {
        let mut parts = Vec::with_capacity(alloc, count)?;
        for _ in 0..count {
            parts.push(Part { from: 0, to: 0 })?;
        }
        Ok(OwnerLists {
            owners: Vec::new(alloc),
            parts,
        })
    }

    /// Returns the list of this number.
    pub fn get(&self, number: usize) -> &[Owner]
        requires { number < length self.now }
        ensures { slice_get self.now number ≡ Some result.now }
    {
        let part = self.parts[number];
        &self.owners[part.from as usize..part.to as usize]
    }
}
