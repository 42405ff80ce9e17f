//! Tests of what no clause says: that the definitions are those of snap rounding, and that calls
//! succeed.

use crate::counts::Counts;
use crate::kind::put_by_kind;
use crate::meeting::meets;
use crate::parts::parts_of;
use crate::search::{hot, hot_plain};
use crate::segment::Segment;
use lay_point::Point;
use std::alloc::{AllocError, Global};
use std::test::*;

/// Returns the point of these coordinates.
fn at(x: i32, y: i32) -> Point {
    Point { x, y }
}

/// Returns the segments between these ends, without those whose ends are one point.
fn segments(alloc: Global, ends: &[(Point, Point)]) -> Result<Vec<Segment>, AllocError> {
    let mut all = Vec::new(alloc);
    for (a, b) in ends {
        if let Some(segment) = Segment::new(*a, *b) {
            all.push(segment)?;
        }
    }
    Ok(all)
}

// Could catch a definition that puts a crossing into another pixel, and a search that always runs out
// of memory: the proof only says that the code follows the definitions.
#[test]
fn finds_crossings(rt: HostRuntime) -> Result<(), Fail> {
    let (least, most) = (i32::MIN, i32::MAX);
    let rows: [(&[(Point, Point)], &[Point]); 4] = [
        (
            &[(at(0, 0), at(1, 1)), (at(0, 1), at(1, 0))],
            &[at(0, 0), at(0, 1), at(1, 0), at(1, 1)],
        ),
        (
            &[(at(0, 0), at(639, 639)), (at(0, 639), at(639, 0))],
            &[at(0, 0), at(0, 639), at(320, 320), at(639, 0), at(639, 639)],
        ),
        (
            &[(at(0, 0), at(3, 1)), (at(1, -1), at(2, 2))],
            &[at(0, 0), at(1, -1), at(2, 1), at(2, 2), at(3, 1)],
        ),
        (
            &[
                (at(least, least), at(most, most)),
                (at(least, most), at(most, least)),
            ],
            &[
                at(least, least),
                at(least, most),
                at(0, 0),
                at(most, least),
                at(most, most),
            ],
        ),
    ];
    for (ends, want) in rows {
        let all = segments(rt.alloc(), ends)?;
        let found = hot(&rt, rt.alloc(), &all)?;
        assert_eq!(rt; found.centres(), want, "{ends:?}");
    }
    Ok(())
}

// Could catch a definition by which parallel segments cross, or those whose lines do, and centres in
// another order.
#[test]
fn finds_ends_alone(rt: HostRuntime) -> Result<(), Fail> {
    let rows: [(&[(Point, Point)], &[Point]); 4] = [
        (&[], &[]),
        (&[(at(3, 3), at(3, 3))], &[]),
        (
            &[
                (at(0, 0), at(4, 0)),
                (at(6, 0), at(2, 0)),
                (at(5, 0), at(5, 3)),
            ],
            &[at(0, 0), at(2, 0), at(4, 0), at(5, 0), at(5, 3), at(6, 0)],
        ),
        (
            &[(at(0, 0), at(2, 2)), (at(4, 0), at(3, 3))],
            &[at(0, 0), at(2, 2), at(3, 3), at(4, 0)],
        ),
    ];
    for (ends, want) in rows {
        let all = segments(rt.alloc(), ends)?;
        let found = hot_plain(rt.alloc(), &all)?;
        assert_eq!(rt; found.centres(), want, "{ends:?}");
    }
    Ok(())
}

// Could catch a definition by which a pixel owns its right and upper sides, or all of them.
#[test]
fn meets_pixels_by_their_left_and_lower_sides(rt: HostRuntime) -> Result<(), Fail> {
    let (least, most) = (i32::MIN, i32::MAX);
    let rows: [((Point, Point), Point, bool); 16] = [
        ((at(0, 0), at(10, 2)), at(4, 1), true),
        ((at(0, 0), at(10, 2)), at(4, 0), false),
        ((at(0, 0), at(10, 2)), at(2, 0), true),
        ((at(0, 0), at(10, 2)), at(3, 0), false),
        ((at(0, 0), at(10, 2)), at(3, 1), true),
        ((at(10, 2), at(0, 0)), at(2, 1), false),
        ((at(0, 0), at(10, 2)), at(11, 2), false),
        ((at(0, 0), at(1, 1)), at(1, 0), false),
        ((at(0, 0), at(1, 1)), at(1, 1), true),
        ((at(0, 1), at(1, 0)), at(1, 1), true),
        ((at(0, 1), at(1, 0)), at(0, 0), false),
        ((at(0, 0), at(0, 5)), at(0, 3), true),
        ((at(0, 0), at(0, 5)), at(1, 3), false),
        ((at(least, least), at(most, most)), at(0, 0), true),
        ((at(least, most), at(most, least)), at(0, -1), true),
        ((at(least, least), at(most, least)), at(most, most), false),
    ];
    for ((a, b), centre, want) in rows {
        let segment = Segment::new(a, b).ok_or("equal ends")?;
        assert_eq!(rt; meets(&segment, centre), want, "{segment:?} {centre:?}");
    }
    Ok(())
}

// Could catch a set that is always empty: the proof only says that it has what was found.
#[test]
fn contains_each_centre(rt: HostRuntime) -> Result<(), Fail> {
    let all = segments(rt.alloc(), &[(at(0, 0), at(4, 4)), (at(0, 4), at(4, 0))])?;
    let found = hot_plain(rt.alloc(), &all)?;
    assert!(rt; found.contains(at(2, 2)));
    assert!(rt; found.contains(at(0, 4)));
    assert!(rt; !found.contains(at(1, 1)));
    Ok(())
}

/// Returns the sides of so many boxes in one another, in the order of their kinds.
fn nested_boxes(alloc: Global, number: u16) -> Result<Vec<Segment>, AllocError> {
    let mut all = Vec::new(alloc);
    for i in 1..number {
        let far = i32::from(i);
        let corners = [at(-far, -far), at(far, -far), at(far, far), at(-far, far)];
        let [a, b, c, d] = corners;
        let sides = segments(alloc, &[(a, b), (b, c), (c, d), (d, a)])?;
        all.extend_from_slice(sides.as_slice())?;
    }
    put_by_kind(&mut all);
    Ok(all)
}

// Could catch lines that leave the sides of nested boxes together, so that their crossings are searched in the
// square of their number: no clause says which lines are taken.
#[test]
fn asks_few_pairs_of_nested_boxes(rt: HostRuntime) -> Result<(), Fail> {
    let all = nested_boxes(rt.alloc(), 201)?;
    let whole = Counts::of(all.as_slice()).pairs();
    let parts = parts_of(rt.alloc(), all, 0)?;
    let mut asked: usize = 0;
    for part in parts.as_slice() {
        asked = asked.saturating_add(Counts::of(part.segments.as_slice()).pairs());
    }
    assert!(rt; asked < whole / 8, "{asked} of {whole}");
    Ok(())
}
