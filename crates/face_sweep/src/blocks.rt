//! The blocks of a list.
ghost use Rattle.std.specs.Prelude.{◌≡◌, ◌<◌, ◌≤◌, ◌+◌, ◌++◌, IfOk, OnOk, drop, length, slice_index_or, take};
ghost use Rattle.face_sweep.specs.Blocks.{AreBlocks, IsSame, all_before, list_in, all_after};

use crate::replacing::replace;
use std::alloc::{AllocError, Global};
use std::mem;

/// A block that has more elements after a change is parted in two.
const MOST: usize = 128;

/// The elements of a list in blocks, and the block that was changed last.
#[derive(Debug, Drop)]
pub(crate) struct Blocks<T> {
    /// The blocks before the current one, in order.
    pub(crate) before: Vec<Vec<T>>,
    /// How many elements these have.
    pub(crate) start: usize,
    /// The current block, where the list was changed last.
    pub(crate) here: Vec<T>,
    /// The blocks after it, the next one last.
    pub(crate) after: Vec<Vec<T>>,
    /// How many elements there are in all.
    pub(crate) len: usize,
}

impl<T: Copy + Drop> Blocks<T> {
    /// Returns the list as one block.
    pub(crate) fn of(alloc: Global, list: Vec<T>) -> Blocks<T>
        ensures list { list_in result ≡ list.items }
        ensures blocks { AreBlocks result }
    {
        let len = list.len();
        Blocks {
            before: Vec::new(alloc),
            start: 0,
            here: list,
            after: Vec::new(alloc),
            len,
        }
    }

    /// Returns the element at this index.
    #[inline]
    pub(crate) fn get(&self, index: usize) -> T
        requires blocks { AreBlocks self.now }
        requires in_range { index < length (list_in self.now) }
        ensures { (d : T) → result ≡ slice_index_or (list_in self.now) index d }
    {
        if index < self.start {
            return get_before(&self.before, self.start, index);
        }
        let at = index - self.start;
        if at < self.here.len() {
            return self.here[at];
        }
        get_after(&self.after, at - self.here.len())
    }

    /// Replaces the elements from `from` up to `to` by others. They are in the current block then.
    ///
    /// # Errors
    ///
    /// `AllocError`, if an allocation fails.
    pub(crate) fn replace(
        &mut self,
        alloc: Global,
        from: usize,
        to: usize,
        others: &[T],
    ) -> Result<(), AllocError>
        requires blocks { AreBlocks self.old }
        requires order { from ≤ to }
        requires bound { to ≤ length (list_in self.old) }
        ensures list { OnOk result (list_in self.new
            ≡ take from (list_in self.old) ++ others.now ++ drop to (list_in self.old)) }
        ensures blocks { OnOk result (AreBlocks self.new) }
    {
        self.move_to(alloc, from, to)?;
        self.replace_here(alloc, from, to, others)?;
        self.part()?;
        Ok(())
    }

    /// Makes a block the current one that has the elements from `from` up to `to`.
    fn move_to(&mut self, alloc: Global, from: usize, to: usize) -> Result<(), AllocError>
        requires blocks { AreBlocks self.old }
        requires order { from ≤ to }
        requires bound { to ≤ length (list_in self.old) }
        ensures same { OnOk result (IsSame self.old self.new) }
        ensures start { OnOk result (self.new.start ≤ from) }
        ensures end { OnOk result (to ≤ self.new.start + length self.new.here.items) }
    {
        if self.start <= from && to - self.start <= self.here.len() {
            return Ok(());
        }
        let blocks = mem::replace(self, Blocks::of(alloc, Vec::new(alloc)));
        *self = blocks.back_to(from)?.on_to(from)?.with_all_to(to)?;
        Ok(())
    }

    /// Goes back until the current block begins at this index or before it.
    fn back_to(self, index: usize) -> Result<Blocks<T>, AllocError>
        requires { AreBlocks self }
        ensures same { IfOk result (λ new. IsSame self new) }
        ensures start { IfOk result (λ new. new.start ≤ index) }
    {
        let mut blocks = self;
        while index < blocks.start {
            blocks = blocks.back()?;
        }
        Ok(blocks)
    }

    /// Makes the block before the current one. An empty block isn't kept.
    fn back(self) -> Result<Blocks<T>, AllocError>
        requires blocks { AreBlocks self }
        requires some { 0 < self.start }
        ensures same { IfOk result (λ new. IsSame self new) }
        ensures fewer { IfOk result (λ new. length new.before.items < length self.before.items) }
    {
        let Blocks {
            mut before,
            start,
            here,
            mut after,
            len,
        } = self;
        let Some(block) = before.pop() else {
            unreachable!()
        };
        push_block(&mut after, here)?;
        let start = start - block.len();
        Ok(Blocks {
            before,
            start,
            here: block,
            after,
            len,
        })
    }

    /// Goes on until the current block ends at this index or behind it.
    fn on_to(self, index: usize) -> Result<Blocks<T>, AllocError>
        requires blocks { AreBlocks self }
        requires start { self.start ≤ index }
        requires bound { index ≤ length (list_in self) }
        ensures same { IfOk result (λ new. IsSame self new) }
        ensures start { IfOk result (λ new. new.start ≤ index) }
        ensures end { IfOk result (λ new. index ≤ new.start + length new.here.items) }
    {
        let mut blocks = self;
        while index > blocks.start + blocks.here.len() {
            blocks = blocks.on()?;
        }
        Ok(blocks)
    }

    /// Makes the block after the current one. An empty block isn't kept.
    fn on(self) -> Result<Blocks<T>, AllocError>
        requires blocks { AreBlocks self }
        requires some { self.start + length self.here.items < self.len }
        ensures same { IfOk result (λ new. IsSame self new) }
        ensures start { IfOk result (λ new. new.start ≡ self.start + length self.here.items) }
        ensures fewer { IfOk result (λ new. length new.after.items < length self.after.items) }
    {
        let Blocks {
            mut before,
            start,
            here,
            mut after,
            len,
        } = self;
        let Some(block) = after.pop() else {
            unreachable!()
        };
        let start = start + here.len();
        push_block(&mut before, here)?;
        Ok(Blocks {
            before,
            start,
            here: block,
            after,
            len,
        })
    }

    /// Joins the next blocks to the current one until it ends at this index or behind it.
    fn with_all_to(self, index: usize) -> Result<Blocks<T>, AllocError>
        requires blocks { AreBlocks self }
        requires bound { index ≤ length (list_in self) }
        ensures same { IfOk result (λ new. IsSame self new) }
        ensures start { IfOk result (λ new. new.start ≡ self.start) }
        ensures end { IfOk result (λ new. index ≤ new.start + length new.here.items) }
    {
        let mut blocks = self;
        while index > blocks.start + blocks.here.len() {
            blocks = blocks.with_next()?;
        }
        Ok(blocks)
    }

    /// Joins the next block to the current one.
    fn with_next(self) -> Result<Blocks<T>, AllocError>
        requires blocks { AreBlocks self }
        requires some { self.start + length self.here.items < self.len }
        ensures same { IfOk result (λ new. IsSame self new) }
        ensures start { IfOk result (λ new. new.start ≡ self.start) }
        ensures fewer { IfOk result (λ new. length new.after.items < length self.after.items) }
    {
        let Blocks {
            before,
            start,
            mut here,
            mut after,
            len,
        } = self;
        let Some(mut block) = after.pop() else {
            unreachable!()
        };
        here.append(&mut block)?;
        Ok(Blocks {
            before,
            start,
            here,
            after,
            len,
        })
    }

    /// Replaces elements that are in the current block.
    fn replace_here(
        &mut self,
        alloc: Global,
        from: usize,
        to: usize,
        others: &[T],
    ) -> Result<(), AllocError>
        requires blocks { AreBlocks self.old }
        requires start { self.old.start ≤ from }
        requires order { from ≤ to }
        requires end { to ≤ self.old.start + length self.old.here.items }
        ensures list { OnOk result (list_in self.new
            ≡ take from (list_in self.old) ++ others.now ++ drop to (list_in self.old)) }
        ensures blocks { OnOk result (AreBlocks self.new) }
    {
        self.len = (self.len - (to - from))
            .checked_add(others.len())
            .ok_or(AllocError)?;
        replace(
            alloc,
            &mut self.here,
            from - self.start,
            to - self.start,
            others,
        )?;
        Ok(())
    }

    /// Parts the current block in two, if it has many elements.
    fn part(&mut self) -> Result<(), AllocError>
        requires { AreBlocks self.old }
        ensures { OnOk result (IsSame self.old self.new) }
    {
        if self.here.len() <= MOST {
            return Ok(());
        }
        let behind = self.here.split_off(self.here.len() / 2)?;
        push_block(&mut self.after, behind)?;
        Ok(())
    }
}

/// Puts a block behind others, unless it has no elements.
fn push_block<T: Drop>(blocks: &mut Vec<Vec<T>>, block: Vec<T>) -> Result<(), AllocError>
    ensures all_before { OnOk result (all_before blocks.new.items ≡ all_before blocks.old.items ++ block.items) }
    ensures all_after { OnOk result (all_after blocks.new.items ≡ block.items ++ all_after blocks.old.items) }
{
    if block.is_empty() {
        return Ok(());
    }
    blocks.push(block)?;
    Ok(())
}

/// Returns the element at this index of blocks in order, which have `len` elements.
fn get_before<T: Copy>(blocks: &[Vec<T>], len: usize, index: usize) -> T
    requires len { len ≡ length (all_before blocks.now) }
    requires in_range { index < len }
    ensures { (d : T) → result ≡ slice_index_or (all_before blocks.now) index d }
{
    let mut at = blocks.len();
    let mut start = len;
    while index < start {
        at -= 1;
        start -= blocks[at].len();
    }
    blocks[at][index - start]
}

/// Returns the element at this index of blocks of which the first one is last.
fn get_after<T: Copy>(blocks: &[Vec<T>], index: usize) -> T
    requires { index < length (all_after blocks.now) }
    ensures { (d : T) → result ≡ slice_index_or (all_after blocks.now) index d }
{
    let mut at = blocks.len() - 1;
    let mut left = index;
    while left >= blocks[at].len() {
        left -= blocks[at].len();
        at -= 1;
    }
    blocks[at][left]
}
