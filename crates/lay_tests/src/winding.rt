//! Tests of what no clause says: that paths whose edges meet at ends alone are turned.

use cif_layout::FromCif;
use cif_read::read;
use lay_items::Snapshot;
use lay_layouts::ItemId;
use lay_oriented::oriented_layout;
use lay_point::Point;
use std::alloc::{AllocError, Global};
use std::test::*;

const FIRST: ItemId = ItemId {
    session: 0,
    txn: 0,
    seq: 1,
};

/// Returns the coordinates of the points as a text has them, in twice the layout's units, each with a space before it.
fn text_of(alloc: Global, points: &[Point]) -> Result<String, AllocError> {
    let mut text = String::new(alloc);
    for point in points {
        text.push_str(&format!(in alloc; " {} {}", point.x / 2, point.y / 2)?)?;
    }
    Ok(text)
}

/// Returns the path that this one is turned to, or `crossed`.
fn oriented_of(alloc: Global, path: &str) -> Result<String, Fail> {
    let text = format!(in alloc; "L NM; P{path}; E")?;
    let layout = Snapshot::from_cif(alloc, read(alloc, text.as_bytes())?)?;
    let directed = oriented_layout(alloc, &layout)?;
    if directed.staying != 0 {
        return Ok(format!(in alloc; "crossed")?);
    }
    let points = directed.layout.points(FIRST, 0).ok_or("no path")?;
    Ok(text_of(alloc, points)?)
}

// Could catch a body that finds no directions, turns a path that needn't be turned, or tells holes by
// anything but parity: the contract says only what an answer is. The directions were found by hand; where
// several rings are joined, the way between two of them is the shortest.
#[test]
fn holes_go_clockwise(rt: HostRuntime) -> Result<(), Fail> {
    let rows = [
        // A square, and the same the other way round.
        (" 0 0 40 0 40 40 0 40", " 0 0 40 0 40 40 0 40"),
        (" 0 0 0 40 40 40 40 0", " 0 0 40 0 40 40 0 40"),
        // A square, then its hole the same way round.
        (
            " 0 0 40 0 40 40 0 40 0 0 10 10 30 10 30 30 10 30 10 10",
            " 0 0 10 10 10 30 30 30 30 10 10 10 0 0 40 0 40 40 0 40",
        ),
        // A square and its hole in turn are as they should be, and both the other way round aren't.
        (
            " 0 0 40 0 40 40 0 40 0 0 10 10 10 30 30 30 30 10 10 10",
            " 0 0 40 0 40 40 0 40 0 0 10 10 10 30 30 30 30 10 10 10",
        ),
        (
            " 10 10 30 10 30 30 10 30 10 10 0 0 0 40 40 40 40 0 0 0",
            " 10 10 0 0 40 0 40 40 0 40 0 0 10 10 10 30 30 30 30 10",
        ),
        // A hole that hangs on a corner.
        (
            " 0 0 40 0 40 40 0 40 0 0 20 10 10 20",
            " 0 0 40 0 40 40 0 40 0 0 10 20 20 10",
        ),
        // A path that crosses itself, and one that goes round twice.
        (" 0 0 10 10 10 0 0 10", "crossed"),
        (" 0 0 40 0 40 40 0 40 0 0 40 0 40 40 0 40", "crossed"),
    ];
    for (path, want) in rows {
        let text = oriented_of(rt.alloc(), path)?;
        assert_eq!(rt; text.as_str(), want, "{path}");
    }
    Ok(())
}
