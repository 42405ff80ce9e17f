//! Items under the ids of a text.
ghost use Rattle.std.specs.Prelude.{◌≡◌, ◌++◌, [], ◌∷◌, IfOk, OnOk};
ghost use Rattle.lay_layouts.specs.LayoutWith.{numbered_from, text_id};

use crate::builder::ItemsBuilder;
use lay_layouts::{Item, ItemId, one_more};
use lay_point::NoMemory;
use std::alloc::Global;
use std::marker::Model;

/// Takes the items of a text one after another, the q-th under the id 0.0.q, so that they needn't be in a list
/// first. Contracts see the list of the items.
#[derive(Drop)]
pub struct NumberedItems {
    items: ItemsBuilder,
    /// How many there are.
    count: u32,
}

impl Model for NumberedItems {
    ghost use Rattle.std.specs.Prelude.{List};
    ghost use Rattle.lay_layouts.specs.declared.item.Item.{Item};
    ghost use Rattle.lay_items.specs.Numbered.{AreNumbered, items_under};

    ghost Value = { List Item };

    ghost view = { λ n. items_under n.items };

    ghost invariant = { λ n. AreNumbered n.items n.count };
}

impl NumberedItems {
    /// Returns no items.
    pub fn new(alloc: Global) -> NumberedItems
        ensures { result ≡ [] }
    {
        NumberedItems {
            items: ItemsBuilder::new(alloc),
            count: 0,
        }
    }

    /// Puts an item after them. More than a `u32` counts are out of memory. Where memory runs out, items may be
    /// lost.
    ///
    /// # Errors
    ///
    /// `NoMemory`, if an allocation fails.
    pub fn push(&mut self, alloc: Global, item: Item) -> Result<(), NoMemory>
        ensures { OnOk result (self.new ≡ self.old ++ (item ∷ [])) }
    {
        let count = one_more(self.count)?;
        match self.items.push(alloc, text_id(count), item) {
            Ok(()) => {
                self.count = count;
                Ok(())
            }
            Err(error) => {
                *self = NumberedItems::new(alloc);
                Err(error)
            }
        }
    }

    /// Returns the items under their ids.
    pub(crate) fn entries(self) -> ItemsBuilder
        ensures { result ≡ numbered_from 1 self }
    {
        self.items
    }
}

/// Returns the items of a list, numbered.
pub(crate) fn numbered(alloc: Global, items: Vec<Item>) -> Result<NumberedItems, NoMemory>
    ensures { IfOk result (λ numbered. numbered ≡ items.items) }
{
    let mut numbered = NumberedItems::new(alloc);
    for item in items {
        numbered.push(alloc, item)?;
    }
    Ok(numbered)
}

/// Returns the id of an item of a text.
fn text_id(seq: u32) -> ItemId
    ensures { result ≡ text_id seq }
{
    ItemId {
        session: 0,
        txn: 0,
        seq,
    }
}
