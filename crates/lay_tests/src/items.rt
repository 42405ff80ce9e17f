//! Tests of what no clause says: that calls succeed, and that definitions mean what they should.
ghost use Rattle.std.specs.Prelude.{◌≡◌};

use cif_layout::FromCif;
use lay_cells::{CellId, Cells};
use lay_items::*;
use lay_layouts::{CellSlot, Item, ItemId, Rings};
use lay_point::{LayerName, Point, Quarter, Ring, Turn};
use std::alloc::Global;
use std::collections::BTreeMap;
use std::test::*;

/// Returns the id of an item of a text.
fn id(seq: u32) -> ItemId
    ensures { result ≡ record { session = 0; txn = 0; seq = seq } }
{
    ItemId {
        session: 0,
        txn: 0,
        seq,
    }
}

/// Returns the ring of the corners.
fn ring(alloc: Global, corners: &[(i32, i32)]) -> Result<Ring, Fail> {
    let mut points = Vec::new(alloc);
    for (x, y) in corners {
        points.push(Point { x: *x, y: *y })?;
    }
    Ok(Ring::new(alloc, &points)?)
}

/// Returns the shape that rings of these corners draw on the layer.
fn shape(alloc: Global, cell: CellId, layer: &[u8], drawn: &[&[(i32, i32)]]) -> Result<Item, Fail> {
    let mut rings = Vec::new(alloc);
    for corners in drawn {
        rings.push(ring(alloc, corners)?)?;
    }
    let layer = LayerName::new(layer).ok_or("no layer name")?;
    let rings = Rings::new(alloc, rings)?;
    Ok(Item::Shape { cell, layer, rings })
}

/// Returns the square on the layer, of this half side around the origin.
fn square(alloc: Global, cell: CellId, layer: &[u8], half: i32) -> Result<Item, Fail> {
    let low = half.checked_neg().ok_or("no half side")?;
    let corners = [(low, low), (half, low), (half, half), (low, half)];
    shape(alloc, cell, layer, &[&corners])
}

/// Returns the snapshot of what the text means.
fn snapshot(alloc: Global, text: &[u8]) -> Result<Snapshot, Fail> {
    Ok(Snapshot::from_cif(alloc, cif_read::read(alloc, text)?)?)
}

// Could catch items that are numbered, layered or placed otherwise than the text says, in the
// definition and the code alike, and calls that never succeed.
#[test]
fn a_text_gives_its_elements_in_order_to_the_top_cell(rt: HostRuntime) -> Result<(), Fail> {
    let alloc = rt.alloc();
    let taken = snapshot(alloc, b"L A; B 2 2 0 0; B 6 0 0 0; L B; B 4 4 0 0; E")?;
    let second = square(alloc, CellId::Top, b"B", 4)?;
    assert!(rt; taken.item(id(2)) == Some(&second) && taken.item(id(3)).is_none());
    let mut items = taken.items(CellId::Top);
    assert!(rt; items.next().map(|(id, _)| id) == Some(id(1)));
    assert!(rt; items.next() == Some((id(2), &second)));
    assert!(rt; items.next().is_none() && taken.items(CellId::Symbol(1)).next().is_none());
    Ok(())
}

/// Returns the layout with a square under the id.
fn with_square(alloc: Global, before: &Version, id: ItemId, layer: &[u8]) -> Result<Version, Fail> {
    let item = square(alloc, CellId::Symbol(7), layer, 4)?;
    let mut writes = Vec::new(alloc);
    writes.push((id, Some(item)))?;
    Ok(before.with(alloc, &writes, &[])?)
}

/// Returns whether the layout has a square on this layer under the id.
fn has_square(alloc: Global, version: &Version, id: ItemId, layer: &[u8]) -> Result<bool, Fail> {
    let item = square(alloc, CellId::Symbol(7), layer, 4)?;
    Ok(version.item(id) == Some(&item))
}

// Could catch writes that no caller can make, and a definition of them by which an item stays as it was.
#[test]
fn a_version_has_what_its_writes_leave(rt: HostRuntime) -> Result<(), Fail> {
    let alloc = rt.alloc();
    let one = with_square(alloc, &Version::new(alloc)?, id(1), b"A")?;
    let replaced = with_square(alloc, &one, id(1), b"Z")?;
    assert!(rt; has_square(alloc, &replaced, id(1), b"Z")?);
    assert!(rt; replaced != one);
    Ok(())
}

// Could catch a definition of the order of ids by which an item that is written later comes last.
#[test]
fn items_are_lent_in_order_of_their_ids(rt: HostRuntime) -> Result<(), Fail> {
    let alloc = rt.alloc();
    let made = ItemId {
        session: 1,
        txn: 1,
        seq: 1,
    };
    let one = with_square(alloc, &Version::new(alloc)?, made, b"B")?;
    let two = with_square(alloc, &one, id(9), b"A")?;
    let mut items = two.iter();
    assert!(rt; items.next().map(|(id, _)| id) == Some(id(9)));
    assert!(rt; items.next().map(|(id, _)| id) == Some(made));
    assert!(rt; items.next().is_none());
    Ok(())
}

// Could catch calls that never succeed, and a fault of the compilers or of what the library states, by
// which shared items go with the first of their owners.
#[test]
fn a_snapshot_answers_as_before(rt: HostRuntime) -> Result<(), Fail> {
    let alloc = rt.alloc();
    let taken = snapshot(alloc, b"L A; B 2 2 0 0; E")?;
    let first = square(alloc, CellId::Top, b"A", 2)?;
    let kept = taken.share(alloc)?;
    let without = kept.version().with(alloc, &[(id(1), None)], &[])?;
    drop(taken);
    assert!(rt; without.item(id(1)).is_none() && without == Version::new(alloc)?);
    assert!(rt; kept.item(id(1)) == Some(&first) && kept.version() != &without);
    let again = Snapshot::of(alloc, kept.version().with(alloc, &[], &[])?)?;
    drop(kept);
    assert!(rt; again.item(id(1)) == Some(&first));
    Ok(())
}

// Could catch copies that fail though there is memory, of rings in place and of those that are shared.
#[test]
fn a_copy_is_equal(rt: HostRuntime) -> Result<(), Fail> {
    let alloc = rt.alloc();
    let square: &[(i32, i32)] = &[(0, 0), (4, 0), (4, 4), (0, 4)];
    let triangle: &[(i32, i32)] = &[(0, 0), (4, 0), (0, 4)];
    let drawn: [&[&[(i32, i32)]]; 4] = [&[square], &[triangle], &[square, triangle], &[]];
    for rings in drawn {
        let item = shape(alloc, CellId::Top, b"A", rings)?;
        assert!(rt; item.copy(alloc)? == item && item.cell() == CellId::Top);
        assert!(rt; item != shape(alloc, CellId::Top, b"A", &[triangle, square])?);
    }
    Ok(())
}

// Could catch symbols that stand by number and not in the order of the text, in the definition and the code
// alike, and calls that never succeed.
#[test]
fn symbols_of_a_list_stand_in_its_order(rt: HostRuntime) -> Result<(), Fail> {
    let alloc = rt.alloc();
    let mut symbols = Cells::new(alloc);
    symbols.add(9)?;
    symbols.add(2)?;
    let parts = Version::of_parts(alloc, &symbols, Vec::new(alloc))?;
    assert_eq!(rt; parts.cells().at(0), Some(9));
    assert_eq!(rt; parts.cells().at(1), Some(2));
    assert_eq!(rt; parts.slot(2), Some(CellSlot::Base(2)));
    assert_eq!(rt; parts.slot(1), None);
    Ok(())
}

// Could catch copies of calls that fail though there is memory.
#[test]
fn a_copied_call_is_equal(rt: HostRuntime) -> Result<(), Fail> {
    let turn = Turn {
        mirror: true,
        quarter: Quarter::R270,
        shift: Point { x: 3, y: 4 },
    };
    let cell = CellId::Symbol(5);
    let item = Item::Placed {
        cell,
        target: 7,
        turn,
    };
    assert!(rt; item.copy(rt.alloc())? == item && item.cell() == cell);
    Ok(())
}

// Could catch a slice that goes with a layout that was made later, and calls that never succeed.
#[test]
fn a_slice_keeps_its_points_where_its_item_is_taken_out(rt: HostRuntime) -> Result<(), Fail> {
    let alloc = rt.alloc();
    let taken = snapshot(alloc, b"L A; B 5 3 0 0; E")?;
    let slice = taken.points(id(1), 0).unwrap_or(&[]);
    assert!(rt; taken.points(id(1), 1).is_none() && taken.points(id(9), 0).is_none());
    assert!(rt; taken.size() == 1 && taken.share(alloc)?.size() == 1);
    let without = taken.version().with(alloc, &[(id(1), None)], &[])?;
    assert_eq!(rt; without.size(), 0);
    let want = [(-5, -3), (5, -3), (5, 3), (-5, 3)];
    assert!(rt; slice.iter().map(|point| (point.x, point.y)).eq(want));
    Ok(())
}

/// Returns the layout with an item under the id, or without one.
fn written(
    alloc: Global,
    before: &Version,
    id: ItemId,
    item: Option<Item>,
) -> Result<Version, Fail> {
    let mut writes = Vec::new(alloc);
    writes.push((id, item))?;
    Ok(before.with(alloc, &writes, &[])?)
}

/// Returns whether the layout has the items of a plain map, in its order, all in one cell.
fn has_items_of(version: &Version, plain: &BTreeMap<ItemId, Item>) -> bool {
    let mut items = version.iter();
    let mut standing = version.items(CellId::Symbol(7));
    for (id, item) in plain {
        if items.next() != Some((*id, item)) || standing.next() != Some((*id, item)) {
            return false;
        }
    }
    items.next().is_none() && standing.next().is_none() && version.size() == plain.len()
}

// Could catch pages that are cut before they are full, empty pages that are kept, and versions whose pages are
// written though they share them.
#[test]
fn versions_keep_their_items_while_pages_are_cut_and_go(rt: HostRuntime) -> Result<(), Fail> {
    let alloc = rt.alloc();
    let mut version = Version::new(alloc)?;
    let mut plain = BTreeMap::new(alloc);
    let mut kept = Vec::new(alloc);
    for seq in 1..66 {
        let item = square(alloc, CellId::Symbol(7), b"A", 2)?;
        let next = written(alloc, &version, id(seq), Some(item.copy(alloc)?))?;
        kept.push((version, plain.clone()?))?;
        plain.insert(id(seq), item)?;
        assert!(rt; next.pages() == if seq < 65 { 1 } else { 2 });
        version = next;
    }
    for seq in 1..66 {
        let next = written(alloc, &version, id(seq), None)?;
        assert!(rt; seq > 1 || (next.size() == 64 && next.pages() == 2));
        kept.push((version, plain.clone()?))?;
        plain.remove(&id(seq));
        version = next;
    }
    assert!(rt; version.size() == 0 && version.pages() == 0 && plain.is_empty());
    for (version, plain) in &kept {
        assert!(rt; has_items_of(version, plain));
    }
    Ok(())
}

// Could catch writes to several pages of which one is passed over or falls into a page beside its own, and calls that
// never succeed.
#[test]
fn writes_fall_into_their_pages(rt: HostRuntime) -> Result<(), Fail> {
    let alloc = rt.alloc();
    let mut items = NumberedItems::new(alloc);
    let mut plain = BTreeMap::new(alloc);
    for seq in 1..1001 {
        let item = square(alloc, CellId::Symbol(7), b"A", 2)?;
        plain.insert(id(seq), item.copy(alloc)?)?;
        items.push(alloc, item)?;
    }
    let before = Version::of_numbered(alloc, &Cells::new(alloc), items)?;
    let other = square(alloc, CellId::Symbol(7), b"B", 4)?;
    let writes = [
        (id(1), None),
        (id(64), Some(other.copy(alloc)?)),
        (id(65), None),
        (id(640), Some(other.copy(alloc)?)),
        (id(1001), Some(other.copy(alloc)?)),
        (id(1002), Some(other)),
    ];
    let after = before.with(alloc, &writes, &[])?;
    assert!(rt; has_items_of(&before, &plain) && before.pages() == 16 && after.pages() == 16);
    for (id, item) in writes {
        match item {
            Some(item) => plain.insert(id, item)?,
            None => plain.remove(&id),
        };
    }
    assert!(rt; has_items_of(&after, &plain));
    Ok(())
}
