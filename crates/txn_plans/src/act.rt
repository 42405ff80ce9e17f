//! Acts: what an accepted command is to do.
ghost use Rattle.std.specs.Prelude.{◌≡◌, ◌<◌, ◌≤◌, [], ◌∷◌, IfOk, List, None, length, take};
ghost use Rattle.lay_layouts.specs.Ids.{id_cmp};
ghost use Rattle.lay_layouts.specs.Layout.{AreRising};
ghost use Rattle.txn_commands.specs.declared.element.Element as elements;
ghost use Rattle.txn_commands.specs.declared.element.Element.TheVariants.{Item as ItemElement};
ghost use Rattle.txn_commands.specs.Acts.{
  change_act,
  drop_cell_act,
  look_act,
  make_act,
  make_cell_act,
};
ghost use Rattle.txn_commands.specs.Writing.{rewritten};

use lay_items::Version;
use lay_layouts::{CellSlot, Item, ItemId};
use lay_point::NoMemory;
use std::alloc::Global;
use std::marker::Model;
use txn_commands::{Done, Element};

/// What an accepted command writes: items, or a symbol.
#[derive(Drop)]
pub enum Written {
    /// It writes nothing.
    Nothing,
    /// Under this id stands this item from then on, or none.
    Item(ItemId, Option<Item>),
    /// The same of each of these ids, one behind the other.
    Items(Vec<(ItemId, Option<Item>)>),
    /// The symbol of this number has this slot from then on, or goes.
    Symbol(u32, Option<CellSlot>),
}

/// The answer to a command, the elements that it touches, what it writes, and how many items it makes.
/// Contracts see the act.
#[derive(Drop)]
pub struct Act {
    /// The answer.
    pub done: Done,
    /// What is touched.
    pub elements: Vec<Element>,
    /// What is written.
    pub written: Written,
    /// How many items are made.
    pub made: u32,
}

impl Model for Act {
    ghost use Rattle.txn_commands.specs.Acts.{Act};
    ghost use Rattle.txn_plans.specs.Acting.{act_in, coded_act};

    ghost Value = { Act };

    ghost coded = { coded_act };

    ghost view = { act_in };
}

impl Act {
    /// Returns the layout after what the act writes. What isn't written is shared.
    ///
    /// # Errors
    ///
    /// `NoMemory`, if an allocation fails.
    ///
    /// # Cost
    ///
    /// That of `Version::with`.
    pub fn over(&self, alloc: Global, layout: &Version) -> Result<Version, NoMemory>
        ensures { IfOk result (λ new. new ≡ rewritten layout.now self.now.items self.now.symbols) }
    {
        match &self.written {
            Written::Nothing => layout.with(alloc, &[], &[]),
            Written::Item(id, item) => item_over(alloc, layout, *id, item),
            Written::Items(items) => items_over(alloc, layout, items.as_slice()),
            Written::Symbol(number, slot) => layout.with(alloc, &[], &[(*number, *slot)]),
        }
    }
}

/// Returns the layout after a write of an item.
fn item_over(
    alloc: Global,
    layout: &Version,
    id: ItemId,
    item: &Option<Item>,
) -> Result<Version, NoMemory>
    ensures { IfOk result (λ new. new ≡ rewritten layout.now ((id, item.now) ∷ []) []) }
{
    let item = match item {
        Some(item) => Some(item.copy(alloc)?),
        None => None,
    };
    layout.with(alloc, &[(id, item)], &[])
}

/// Returns the layout after these writes of items, one behind the other. As long as their ids rise, they are written
/// at once: those of an operation rise up to the last that goes, and again from the first that comes.
fn items_over(
    alloc: Global,
    layout: &Version,
    items: &[(ItemId, Option<Item>)],
) -> Result<Version, NoMemory>
    ensures { IfOk result (λ new. new ≡ rewritten layout.now items.now []) }
{
    let mut new = layout.with(alloc, &[], &[])?;
    let mut rest = items;
    while !rest.is_empty() {
        let (rising, behind) = rest.split_at(rising_len(rest));
        new = new.with(alloc, rising, &[])?;
        rest = behind;
    }
    Ok(new)
}

/// Returns how many of the first writes have ids that rise.
fn rising_len(items: &[(ItemId, Option<Item>)]) -> usize
    requires { 0 < length items.now }
    ensures some { 0 < result }
    ensures within { result ≤ length items.now }
    ensures rising { AreRising id_cmp (take result items.now) }
{
    let mut count = 1;
    while count < items.len() && items[count - 1].0.cmp(&items[count].0).is_lt() {
        count += 1;
    }
    count
}

/// An item comes to stand under a new id. The elements begin with that of the id.
pub(crate) fn make_act(new: ItemId, item: Item, touched: Vec<Element>) -> Act
    ensures { (rest : List elements.Element) → touched.items ≡ ItemElement new ∷ rest
        → result ≡ make_act new item rest }
{
    Act {
        done: Done::Made(new),
        elements: touched,
        written: Written::Item(new, Some(item)),
        made: 1,
    }
}

/// The item of an id that is there is written, or removed.
pub(crate) fn change_act(alloc: Global, id: ItemId, item: Option<Item>) -> Result<Act, NoMemory>
    ensures { IfOk result (λ act. act ≡ change_act id item) }
{
    Ok(Act {
        done: Done::Plain,
        elements: one(alloc, Element::Item(id))?,
        written: Written::Item(id, item),
        made: 0,
    })
}

/// The item of the id is read.
pub(crate) fn look_act(alloc: Global, id: ItemId, item: Item) -> Result<Act, NoMemory>
    ensures { IfOk result (λ act. act ≡ look_act id item) }
{
    Ok(Act {
        done: Done::Found(item),
        elements: one(alloc, Element::Item(id))?,
        written: Written::Nothing,
        made: 0,
    })
}

/// A symbol is made.
pub(crate) fn make_cell_act(alloc: Global, number: u32) -> Result<Act, NoMemory>
    ensures { IfOk result (λ act. act ≡ make_cell_act number) }
{
    Ok(Act {
        done: Done::Plain,
        elements: one(alloc, Element::Cell(number))?,
        written: Written::Symbol(number, Some(CellSlot::Made)),
        made: 0,
    })
}

/// A symbol goes.
pub(crate) fn drop_cell_act(alloc: Global, number: u32) -> Result<Act, NoMemory>
    ensures { IfOk result (λ act. act ≡ drop_cell_act number) }
{
    let mut elements = Vec::with_capacity(alloc, 3)?;
    elements.push(Element::Cell(number))?;
    elements.push(Element::Content(number))?;
    elements.push(Element::Uses(number))?;
    Ok(Act {
        done: Done::Plain,
        elements,
        written: Written::Symbol(number, None),
        made: 0,
    })
}

/// Returns this element alone.
fn one(alloc: Global, element: Element) -> Result<Vec<Element>, NoMemory>
    ensures { IfOk result (λ elements. elements.items ≡ element ∷ []) }
{
    let mut elements = Vec::with_capacity(alloc, 1)?;
    elements.push(element)?;
    Ok(elements)
}
