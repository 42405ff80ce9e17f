//! All items, the items of a cell, its shapes on a layer and its calls, lent in order of their ids.
ghost use Rattle.std.specs.Prelude.{◌≡◌};
ghost use Rattle.lay_items.specs.Runs.{from_mark, least_id, next_mark};

use crate::group::{By, Group, call_group, cell_group, layer_group};
use crate::marks::{Mark, Marks};
use crate::runs::Runs;
use lay_cells::CellId;
use lay_layouts::{Item, ItemId};
use lay_pages::Pages;
use lay_point::{LayerName, Ring, Turn};
use std::marker::Model;

/// Lends items with their ids, in order of the ids. Contracts see the list of those that are left.
#[derive(Drop)]
pub struct Entries<'a> {
    rest: lay_pages::Entries<'a, ItemId, Item>,
}

impl<'a> Model for Entries<'a> {
    ghost use Rattle.std.specs.Prelude.{List};
    ghost use Rattle.lay_layouts.specs.declared.id.ItemId.{ItemId};
    ghost use Rattle.lay_layouts.specs.declared.item.Item.{Item};

    ghost Value = { List (ItemId × Item) };

    ghost view = { λ e. e.rest };
}

impl<'a> Entries<'a> {
    /// Returns these entries.
    pub fn new(rest: lay_pages::Entries<'a, ItemId, Item>) -> Entries<'a>
        ensures { result ≡ rest.entry }
    {
        Entries { rest }
    }
}

impl<'a> Iterator for Entries<'a> {
    ghost use Rattle.std.specs.Iterator.{YieldsFirstBy, item_count};

    type Item = (ItemId, &'a Item);

    ghost next_gives = { YieldsFirstBy (λ lent. (lent.0, lent.1.now)) (λ left. left) };

    ghost remaining = { item_count (λ left. left) };

    fn next(&mut self) -> Option<(ItemId, &'a Item)> {
        self.rest.next()
    }
}

/// Lends the items of a group with their ids, in order of the ids. Of other items it reads one for each run. Contracts
/// see the list of those that are left.
#[derive(Drop)]
struct OfGroup<'a> {
    items: &'a Pages<ItemId, Item>,
    marks: &'a Marks,
    by: By,
    group: Group,
    /// What is left of all items, up to the end of which the group's next run is looked for.
    rest: lay_pages::Entries<'a, ItemId, Item>,
}

impl<'a> Model for OfGroup<'a> {
    ghost use Rattle.std.specs.Prelude.{List};
    ghost use Rattle.lay_layouts.specs.declared.id.ItemId.{ItemId};
    ghost use Rattle.lay_layouts.specs.declared.item.Item.{Item};
    ghost use Rattle.lay_items.specs.Runs.{AreLent, of_group};

    ghost Value = { List (ItemId × Item) };

    ghost view = { λ i. of_group i.by i.group i.rest };

    ghost invariant = { λ i. AreLent i.by i.marks.now i.items.now i.rest };
}

impl<'a> OfGroup<'a> {
    ghost use Rattle.std.specs.Prelude.{◌≡◌};
    ghost use Rattle.std.specs.List.Sorted.{IsStrictlySortedBy};
    ghost use Rattle.std.specs.Map.{keys_of};
    ghost use Rattle.lay_items.specs.Runs.{AreRuns, from_mark, next_mark, of_group};
    ghost use Rattle.lay_layouts.specs.Ids.{id_cmp};

    /// Returns those of the items that are of the group.
    fn new(items: &'a Pages<ItemId, Item>, marks: &'a Marks, by: By, group: Group) -> OfGroup<'a>
        requires sorted { IsStrictlySortedBy id_cmp (keys_of items.now) }
        requires runs { AreRuns by items.now marks.now }
        ensures { result ≡ of_group by group items.now }
    {
        let rest = from_next(items, marks, group, least_id());
        OfGroup {
            items,
            marks,
            by,
            group,
            rest,
        }
    }
}

/// Returns the items from the group's next mark on, of this id or a later one. Where there is none, no items.
fn from_next<'a>(
    items: &'a Pages<ItemId, Item>,
    marks: &'a Marks,
    group: Group,
    id: ItemId,
) -> lay_pages::Entries<'a, ItemId, Item>
    ensures { result ≡ from_mark (next_mark group id marks.now) items.now }
{
    let Some(first) = next_mark(marks, group, id) else {
        return lay_pages::Entries::none();
    };
    items.from(first)
}

/// Returns the id of the group's next mark, of this id or a later one.
fn next_mark(marks: &Marks, group: Group, id: ItemId) -> Option<ItemId>
    ensures { result ≡ next_mark group id marks.now }
{
    let (mark, _) = marks.from(Mark { group, id }).next()?;
    if mark.group == group {
        return Some(mark.id);
    }
    None
}

/// Returns the least id.
fn least_id() -> ItemId
    ensures { result ≡ least_id }
{
    ItemId {
        session: 0,
        txn: 0,
        seq: 0,
    }
}

impl<'a> Iterator for OfGroup<'a> {
    ghost use Rattle.std.specs.Iterator.{YieldsFirstBy, item_count};

    type Item = (ItemId, &'a Item);

    ghost next_gives = { YieldsFirstBy (λ lent. (lent.0, lent.1.now)) (λ left. left) };

    ghost remaining = { item_count (λ left. left) };

    fn next(&mut self) -> Option<(ItemId, &'a Item)> {
        let (id, item) = self.rest.next()?;
        if self.by.is_in(item, self.group) {
            return Some((id, item));
        }
        self.rest = from_next(self.items, self.marks, self.group, id);
        self.rest.next()
    }
}

/// Lends the items of a cell with their ids, in order of the ids. Contracts see the list of those that
/// are left.
#[derive(Drop)]
pub struct Items<'a> {
    items: OfGroup<'a>,
}

impl<'a> Model for Items<'a> {
    ghost use Rattle.std.specs.Prelude.{List};
    ghost use Rattle.lay_layouts.specs.declared.id.ItemId.{ItemId};
    ghost use Rattle.lay_layouts.specs.declared.item.Item.{Item};

    ghost Value = { List (ItemId × Item) };

    ghost view = { λ i. i.items };
}

impl<'a> Items<'a> {
    ghost use Rattle.std.specs.Prelude.{◌≡◌};
    ghost use Rattle.lay_items.specs.Runs.{AreHeld};
    ghost use Rattle.lay_layouts.specs.Items.{standing_in};

    /// Returns those of the items that stand in the cell.
    pub fn new(items: &'a Pages<ItemId, Item>, runs: &'a Runs, cell: CellId) -> Items<'a>
        requires { AreHeld items.now runs.now.cells runs.now.layers }
        ensures { result ≡ standing_in cell items.now }
    {
        Items {
            items: OfGroup::new(items, &runs.cells, By::Cell, cell_group(cell)),
        }
    }
}

impl<'a> Iterator for Items<'a> {
    ghost use Rattle.std.specs.Iterator.{YieldsFirstBy, item_count};

    type Item = (ItemId, &'a Item);

    ghost next_gives = { YieldsFirstBy (λ lent. (lent.0, lent.1.now)) (λ left. left) };

    ghost remaining = { item_count (λ left. left) };

    fn next(&mut self) -> Option<(ItemId, &'a Item)> {
        self.items.next()
    }
}

/// Lends the shapes of a cell on a layer, each its id and its rings, in order of the ids. Contracts see the
/// list of those that are left.
#[derive(Drop)]
pub struct Shapes<'a> {
    items: OfGroup<'a>,
    layer: LayerName,
}

impl<'a> Model for Shapes<'a> {
    ghost use Rattle.std.specs.Prelude.{List};
    ghost use Rattle.lay_layouts.specs.Lent.{LentShape, shapes_among};

    ghost Value = { List LentShape };

    ghost view = { λ s. shapes_among s.layer s.items };
}

impl<'a> Shapes<'a> {
    ghost use Rattle.lay_items.specs.Runs.{AreHeld};
    ghost use Rattle.lay_layouts.specs.Items.{standing_in};
    ghost use Rattle.lay_layouts.specs.Lent.{shapes_among};

    /// Returns those of the items that are shapes on the layer of the cell.
    pub fn new(
        items: &'a Pages<ItemId, Item>,
        runs: &'a Runs,
        cell: CellId,
        layer: LayerName,
    ) -> Shapes<'a>
        requires { AreHeld items.now runs.now.cells runs.now.layers }
        ensures { result ≡ shapes_among layer (standing_in cell items.now) }
    {
        let group = layer_group(cell, &layer);
        let items = OfGroup::new(items, &runs.layers, By::Layer, group);
        Shapes { items, layer }
    }
}

impl<'a> Iterator for Shapes<'a> {
    ghost use Rattle.std.specs.Iterator.{YieldsFirstBy, item_count};

    type Item = (ItemId, &'a [Ring]);

    ghost next_gives = { YieldsFirstBy (λ lent. (lent.0, lent.1.now)) (λ left. left) };

    ghost remaining = { item_count (λ left. left) };

    fn next(&mut self) -> Option<(ItemId, &'a [Ring])> {
        while let Some((id, item)) = self.items.next() {
            match item {
                Item::Shape { layer, rings, .. } => {
                    if *layer == self.layer {
                        return Some((id, rings.as_slice()));
                    }
                }
                Item::Placed { .. } => {}
            }
        }
        None
    }
}

/// Lends the calls that stand in a cell, each its id, the number of the symbol that it calls and what is
/// done to that, in order of the ids. Contracts see the list of those that are left.
#[derive(Drop)]
pub struct Calls<'a> {
    items: OfGroup<'a>,
}

impl<'a> Model for Calls<'a> {
    ghost use Rattle.std.specs.Prelude.{List};
    ghost use Rattle.lay_layouts.specs.Lent.{LentCall, calls_lent};

    ghost Value = { List LentCall };

    ghost view = { λ c. calls_lent c.items };
}

impl<'a> Calls<'a> {
    ghost use Rattle.lay_items.specs.Runs.{AreHeld};
    ghost use Rattle.lay_layouts.specs.Items.{standing_in};
    ghost use Rattle.lay_layouts.specs.Lent.{calls_lent};

    /// Returns those of the items that are calls in the cell.
    pub fn new(items: &'a Pages<ItemId, Item>, runs: &'a Runs, cell: CellId) -> Calls<'a>
        requires { AreHeld items.now runs.now.cells runs.now.layers }
        ensures { result ≡ calls_lent (standing_in cell items.now) }
    {
        let items = OfGroup::new(items, &runs.layers, By::Layer, call_group(cell));
        Calls { items }
    }
}

impl<'a> Iterator for Calls<'a> {
    ghost use Rattle.std.specs.Iterator.{YieldsFirst, item_count};

    type Item = (ItemId, u32, Turn);

    ghost next_gives = { YieldsFirst (λ left. left) };

    ghost remaining = { item_count (λ left. left) };

    fn next(&mut self) -> Option<(ItemId, u32, Turn)> {
        while let Some((id, item)) = self.items.next() {
            match item {
                Item::Shape { .. } => {}
                Item::Placed { target, turn, .. } => return Some((id, *target, *turn)),
            }
        }
        None
    }
}
