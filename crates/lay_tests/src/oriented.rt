//! Tests of what no contract says: that shapes are turned where they can be.

use cif_layout::FromCif;
use cif_read::read;
use lay_cells::CellId;
use lay_items::Snapshot;
use lay_layouts::ItemId;
use lay_oriented::oriented_layout;
use std::test::*;

const FIRST: ItemId = ItemId {
    session: 0,
    txn: 0,
    seq: 1,
};

// Could catch a layout that is given back as it was, with its shapes counted, and a shape that is counted though it is seen alike.
// The path goes round a frame, then round its hole the same way.
#[test]
fn a_frame_is_turned(rt: HostRuntime) -> Result<(), Fail> {
    let alloc = rt.alloc();
    let text = b"L NM; P 0 0 60 0 60 60 0 60 0 0 20 20 40 20 40 40 20 40 20 20; E";
    let layout = Snapshot::from_cif(alloc, read(alloc, text)?)?;
    let directed = oriented_layout(alloc, &layout)?;
    assert_eq!(rt; directed.staying, 0);
    assert!(rt; directed.first.is_empty() && directed.layout != layout);
    let again = oriented_layout(alloc, &directed.layout)?;
    assert!(rt; again.layout == directed.layout);
    assert!(rt; again.staying == 0 && again.first.is_empty());
    Ok(())
}

// Could catch a shape that is counted and changed, and one that is passed over. The path crosses itself where no edge ends.
#[test]
fn a_path_that_crosses_itself_stays(rt: HostRuntime) -> Result<(), Fail> {
    let alloc = rt.alloc();
    let text = b"L NM; P 0 0 40 40 40 0 0 40; E";
    let layout = Snapshot::from_cif(alloc, read(alloc, text)?)?;
    let directed = oriented_layout(alloc, &layout)?;
    assert_eq!(rt; directed.staying, 1);
    assert!(rt; directed.first.as_slice() == [(CellId::Top, FIRST)].as_slice());
    assert!(rt; directed.layout == layout);
    Ok(())
}

// Could catch names of shapes that were turned or seen alike, names in another order, and more than three of
// them or fewer. Of six paths the first and the fourth don't cross themselves.
#[test]
fn the_first_three_that_stay_are_named(rt: HostRuntime) -> Result<(), Fail> {
    let alloc = rt.alloc();
    let bow = "P 0 0 40 40 40 0 0 40;";
    let square = "P 0 0 0 40 40 40 40 0;";
    let text = format!(in alloc;
        "L NM; {square}{bow}{bow}{square} DS 7; L NM; {bow} DF; {bow}{bow}{bow} C 7; E"
    )?;
    let layout = Snapshot::from_cif(alloc, read(alloc, text.as_bytes())?)?;
    let directed = oriented_layout(alloc, &layout)?;
    assert_eq!(rt; directed.staying, 6);
    let mut names = String::new(alloc);
    for (cell, id) in &directed.first {
        let name = format!(in alloc; "{} {}, ", *cell == CellId::Top, id.seq)?;
        names.push_str(&name)?;
    }
    assert_eq!(rt; names.as_str(), "true 2, true 3, false 5, ");
    Ok(())
}
