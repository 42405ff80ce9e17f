//! A list of which elements are replaced near where it was changed last.
ghost use Rattle.std.specs.Prelude.{◌≡◌, ◌<◌, ◌≤◌, ◌++◌, OnOk, drop, length, slice_index_or, take};

use crate::blocks::Blocks;
use std::alloc::{AllocError, Global};
use std::marker::Model;

/// A list in blocks. To replace elements near those that were replaced last moves the elements of a block or
/// two, and not all that are behind them. Contracts see the list of the elements.
#[derive(Debug, Drop)]
pub struct BlockList<T> {
    blocks: Blocks<T>,
}

impl<T> Model for BlockList<T> {
    ghost use Rattle.std.specs.Prelude.{List};
    ghost use Rattle.face_sweep.specs.Blocks.{AreBlocks, list_in};

    ghost Value = { List T };

    ghost view = { λ b. list_in b.blocks };

    ghost invariant = { λ b. AreBlocks b.blocks };
}

impl<T: Copy + Drop> BlockList<T> {
    /// Returns the list.
    pub fn of(alloc: Global, list: Vec<T>) -> BlockList<T>
        ensures { result ≡ list.items }
    {
        BlockList {
            blocks: Blocks::of(alloc, list),
        }
    }

    /// Returns how many elements there are.
    pub fn len(&self) -> usize
        ensures { result ≡ length self.now }
    {
        self.blocks.len
    }

    /// Returns the element at this index.
    ///
    /// # Cost
    ///
    /// A step, if the element is in the block that was changed last, and else one for each block between.
    #[inline]
    pub fn get(&self, index: usize) -> T
        requires { index < length self.now }
        ensures { (d : T) → result ≡ slice_index_or self.now index d }
    {
        self.blocks.get(index)
    }

    /// Replaces the elements from `from` up to `to` by others. Where that runs out of memory, elements may be lost.
    ///
    /// # Errors
    ///
    /// `AllocError`, if an allocation fails.
    ///
    /// # Cost
    ///
    /// A step for each block between these elements and the block that was changed last, and for each element
    /// of the blocks that they are in, and for each other.
    pub fn replace(
        &mut self,
        alloc: Global,
        from: usize,
        to: usize,
        others: &[T],
    ) -> Result<(), AllocError>
        requires order { from ≤ to }
        requires bound { to ≤ length self.old }
        ensures { OnOk result (self.new ≡ take from self.old ++ others.now ++ drop to self.old) }
    {
        let done = self.blocks.replace(alloc, from, to, others);
        if done.is_err() {
            self.blocks = Blocks::of(alloc, Vec::new(alloc));
        }
        done
    }
}
