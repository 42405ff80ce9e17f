//! Tests of what no clause says: that calls succeed, and that touching is what a reader takes it for.
ghost use Rattle.std.specs.Prelude.{◌≡◌};

use face_rings::*;
use lay_point::{Point, Ring};
use std::alloc::Global;
use std::test::*;

// Could catch a joining that always runs out of memory, boxes that are apart by a unit and joined, and boxes
// that share only a corner, or hang together through a third, and aren't.
#[test]
fn boxes_are_joined_where_they_touch(rt: HostRuntime) -> Result<(), Fail> {
    let corners: [(i32, i32, i32, i32); 5] = [
        (0, 0, 10, 10),
        (21, 0, 30, 10),
        (11, 0, 15, 5),
        (10, 10, 11, 20),
        (11, 5, 20, 6),
    ];
    let mut rings = Vec::new(rt.alloc());
    for (left, low, right, high) in corners {
        let one = Point { x: left, y: low };
        let other = Point { x: right, y: high };
        rings.push(Ring::rectangle(rt.alloc(), one, other))?;
    }
    let found = parts(rt.alloc(), rings)?;
    assert_eq!(rt; found.len(), 3);
    let wanted: [(usize, &[i32]); 3] = [(0, &[0, 10]), (1, &[21]), (2, &[11, 11])];
    for (number, want) in wanted {
        let part = found.get(number).ok_or("no part")?;
        assert_eq!(rt; lefts_of(rt.alloc(), part)?.as_slice(), want);
    }
    Ok(())
}

/// Returns the x of the first point of each ring.
fn lefts_of(alloc: Global, rings: &[Ring]) -> Result<Vec<i32>, Fail> {
    let mut lefts = Vec::new(alloc);
    for ring in rings {
        lefts.push(ring.points().first().ok_or("no point")?.x)?;
    }
    Ok(lefts)
}
