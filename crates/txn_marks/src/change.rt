//! Values before and after.
ghost use Rattle.std.specs.Prelude.{◌≡◌, IfOk, option_copied};
ghost use Rattle.lay_layouts.specs.Same.{option_item_eq};
ghost use Rattle.txn_commands.specs.Changes.{change_of};
ghost use Rattle.txn_commands.specs.Records.{option_slot_eq};
ghost use Rattle.txn_marks.specs.Kept.{kept_item};

use lay_layouts::{CellSlot, Item};
use lay_point::NoMemory;
use std::alloc::{AllocError, Global};
use std::marker::Model;
use std::sync::Arc;

/// What stands under an id before and after, each shared by all who hold it: most items are made, and have nothing
/// before. `Writes` makes one only where the two differ. Contracts see the change.
#[derive(Debug, Drop)]
pub struct ItemChange {
    before: Option<Arc<Item>>,
    after: Option<Arc<Item>>,
}

impl Model for ItemChange {
    ghost use Rattle.txn_commands.specs.Changes.{Change};
    ghost use Rattle.lay_layouts.specs.declared.item.Item.{Item};
    ghost use Rattle.txn_marks.specs.Coded.{coded_item_change};
    ghost use Rattle.txn_marks.specs.Kept.{kept_item};

    ghost Value = { Change Item };

    ghost coded = { coded_item_change };

    ghost view = { λ c. record { before = kept_item c.before; after = kept_item c.after } };
}

impl ItemChange {
    /// What stands there before, if anything does.
    pub fn before(&self) -> Option<&Item>
        ensures { option_copied result ≡ self.now.before }
    {
        lent(&self.before)
    }

    /// What stands there after, if anything does.
    pub fn after(&self) -> Option<&Item>
        ensures { option_copied result ≡ self.now.after }
    {
        lent(&self.after)
    }
}

impl Clone for ItemChange {
    ghost is_clone = { λ change copy. copy ≡ change };

    fn clone(&self) -> Result<ItemChange, AllocError> {
        Ok(ItemChange {
            before: shared(&self.before)?,
            after: shared(&self.after)?,
        })
    }
}

/// Returns a copy of the item, where there is one. Its rings are shared.
pub(crate) fn cloned(item: Option<&Item>) -> Result<Option<Item>, AllocError>
    ensures { IfOk result (λ copy. copy ≡ option_copied item.entry) }
{
    match item {
        Some(item) => Ok(Some(item.clone()?)),
        None => Ok(None),
    }
}

/// The slot of a symbol before and after, which differ. Contracts see the change.
#[derive(Clone, Copy, Debug)]
pub struct CellChange {
    pub(crate) before: Option<CellSlot>,
    pub(crate) after: Option<CellSlot>,
}

impl Model for CellChange {
    ghost use Rattle.txn_commands.specs.Changes.{Change};
    ghost use Rattle.lay_layouts.specs.declared.slot.CellSlot.{CellSlot};
    ghost use Rattle.txn_marks.specs.Coded.{coded_cell_change};

    ghost Value = { Change CellSlot };

    ghost coded = { coded_cell_change };

    ghost view = { λ c. record { before = c.before; after = c.after } };

    ghost inverse = { λ c. record { before = c.before; after = c.after } };
}

impl CellChange {
    /// The slot before, where the symbol was there.
    pub fn before(&self) -> Option<CellSlot>
        ensures { result ≡ self.now.before }
    {
        self.before
    }

    /// The slot after, where the symbol is there.
    pub fn after(&self) -> Option<CellSlot>
        ensures { result ≡ self.now.after }
    {
        self.after
    }
}

/// Returns the change from one item to the other, where they differ.
pub(crate) fn item_change(
    alloc: Global,
    before: Option<Item>,
    after: Option<Item>,
) -> Result<Option<ItemChange>, NoMemory>
    ensures { IfOk result (λ change. change ≡ change_of option_item_eq before after) }
{
    if before == after {
        return Ok(None);
    }
    Ok(Some(ItemChange {
        before: kept(alloc, before)?,
        after: kept(alloc, after)?,
    }))
}

/// Returns the item to be shared, where there is one.
fn kept(alloc: Global, item: Option<Item>) -> Result<Option<Arc<Item>>, NoMemory>
    ensures { IfOk result (λ kept. kept_item kept ≡ item) }
{
    match item {
        Some(item) => Ok(Some(Arc::new(alloc, item)?)),
        None => Ok(None),
    }
}

/// Lends the item, where there is one.
fn lent(kept: &Option<Arc<Item>>) -> Option<&Item>
    ensures { option_copied result ≡ kept_item kept.now }
{
    match kept {
        Some(item) => Some(item),
        None => None,
    }
}

/// Returns the same item, shared once more, where there is one.
fn shared(kept: &Option<Arc<Item>>) -> Result<Option<Arc<Item>>, AllocError>
    ensures { IfOk result (λ share. kept_item share ≡ kept_item kept.now) }
{
    match kept {
        Some(item) => Ok(Some(Arc::try_clone(item)?)),
        None => Ok(None),
    }
}

/// Returns the change from one slot to the other, where they differ.
pub(crate) fn cell_change(before: Option<CellSlot>, after: Option<CellSlot>) -> Option<CellChange>
    ensures { result ≡ change_of option_slot_eq before after }
{
    if before == after {
        return None;
    }
    Some(CellChange { before, after })
}
