//! Tests of what no clause says: that an item behind one of its own group has no mark.
ghost use Rattle.std.specs.Prelude.{IfOk};
ghost use Rattle.std.specs.List.Sorted.{IsStrictlySortedBy};
ghost use Rattle.std.specs.Map.{keys_of};
ghost use Rattle.lay_items.specs.Runs.{AreHeld};
ghost use Rattle.lay_layouts.specs.Ids.{id_cmp};

use lay_cells::CellId;
use lay_items::{ItemsBuilder, Runs};
use lay_layouts::{Item, ItemId, Rings};
use lay_pages::Pages;
use lay_point::{LayerName, Point, Ring};
use std::alloc::Global;
use std::test::*;

/// Items and their runs.
#[derive(Drop)]
struct Held {
    items: Pages<ItemId, Item>,
    runs: Runs,
}

/// Returns no items.
fn none(alloc: Global) -> Held
    ensures { AreHeld result.items result.runs.cells result.runs.layers }
{
    Held {
        items: Pages::new(alloc),
        runs: Runs::new(alloc),
    }
}

/// Returns the items after a write.
#[tactic(auto, using(lay_pages::proofs::RisingLemmas::sorted_one))]
fn written(alloc: Global, held: Held, seq: u32, item: Option<Item>) -> Result<Held, Fail>
    requires { AreHeld held.items held.runs.cells held.runs.layers }
    ensures { IfOk result (λ new. AreHeld new.items new.runs.cells new.runs.layers) }
{
    let id = ItemId {
        session: 1,
        txn: 1,
        seq,
    };
    let writes = [(id, item)];
    let items = held.items.with_rising(alloc, &writes)?;
    let runs = held.runs.with_all(alloc, &held.items, &items, &writes)?;
    Ok(Held { items, runs })
}

/// Returns a box on the layer.
fn on_layer(alloc: Global, cell: CellId, layer: &[u8]) -> Result<Option<Item>, Fail> {
    let layer = LayerName::new(layer).ok_or("no layer name")?;
    let ring = Ring::rectangle(alloc, Point { x: 0, y: 0 }, Point { x: 2, y: 2 });
    let rings = Rings::one(alloc, ring)?;
    Ok(Some(Item::Shape { cell, layer, rings }))
}

/// Returns the items after so many boxes on the layer, behind those before.
fn boxes(alloc: Global, mut held: Held, first: u32, layer: &[u8]) -> Result<Held, Fail>
    requires { AreHeld held.items held.runs.cells held.runs.layers }
    ensures { IfOk result (λ new. AreHeld new.items new.runs.cells new.runs.layers) }
{
    for step in 0..100 {
        let item = on_layer(alloc, CellId::Top, layer)?;
        held = written(alloc, held, first.saturating_add(step), item)?;
    }
    Ok(held)
}

/// Returns the runs of the items as they are taken one after another.
fn runs_of(alloc: Global, items: &Pages<ItemId, Item>) -> Result<Runs, Fail>
    requires { IsStrictlySortedBy id_cmp (keys_of items.now) }
{
    let mut taken = ItemsBuilder::new(alloc);
    for (id, item) in items.iter() {
        taken.push(alloc, id, item.clone()?)?;
    }
    let (_, runs) = taken.build(alloc)?;
    Ok(runs)
}

/// Returns how many runs are marked by cell, and by layer.
fn counts(held: &Held) -> (usize, usize) {
    (held.runs.cells.len(), held.runs.layers.len())
}

// Could catch a mark for each item, by which an index takes as much memory as one of all ids, and a mark that
// stays where its item has gone.
#[test]
fn items_of_one_group_that_follow_each_other_have_one_mark(rt: HostRuntime) -> Result<(), Fail> {
    let alloc = rt.alloc();
    let held = boxes(alloc, none(alloc), 0, b"A")?;
    assert_eq!(rt; counts(&held), (1, 1));
    let held = boxes(alloc, held, 100, b"B")?;
    assert_eq!(rt; counts(&held), (1, 2));
    let other = on_layer(alloc, CellId::Symbol(1), b"A")?;
    let held = written(alloc, held, 50, other)?;
    assert_eq!(rt; counts(&held), (3, 4));
    let held = written(alloc, held, 50, None)?;
    assert_eq!(rt; counts(&held), (2, 3));
    let held = written(alloc, held, 99, None)?;
    assert_eq!(rt; counts(&held), (2, 3));
    Ok(())
}

// Could catch a text whose items are all marked.
#[test]
fn the_runs_of_a_text_are_marked_once_each(rt: HostRuntime) -> Result<(), Fail> {
    let alloc = rt.alloc();
    let held = boxes(alloc, boxes(alloc, none(alloc), 0, b"A")?, 100, b"B")?;
    let runs = runs_of(alloc, &held.items)?;
    assert!(rt; runs.cells.len() == 1 && runs.layers.len() == 2);
    Ok(())
}
