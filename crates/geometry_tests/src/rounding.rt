//! Tests of what no clause says: that the definitions are those of snap rounding, and that calls
//! succeed.

use crate::drawn::{at, owned, two_squares};
use lay_point::{Edge, Point, Ring};
use snap_chains::*;
use snap_pixels::{Segment, hot_plain};
use std::alloc::{AllocError, Global};
use std::test::*;

/// Returns the segments between these ends, without those whose ends are one point.
fn segments(alloc: Global, ends: &[(Point, Point)]) -> Result<Vec<Segment>, AllocError> {
    let mut all = Vec::new(alloc);
    for (a, b) in ends {
        if let Some(segment) = Segment::new(*a, *b) {
            all.push(segment)?;
        }
    }
    Ok(all)
}

/// Returns the edges between these ends, without those whose ends are one point.
fn edges(alloc: Global, ends: &[(Point, Point)]) -> Result<Vec<Edge>, AllocError> {
    let mut all = Vec::new(alloc);
    for (a, b) in ends {
        if let Some(edge) = Edge::new(*a, *b) {
            all.push(edge)?;
        }
    }
    Ok(all)
}

// Could catch a definition of the pixels that a segment meets, or of their order, that isn't snap
// rounding's: the proof only says that the code follows it.
#[test]
fn chains_go_through_hot_pixels(rt: HostRuntime) -> Result<(), Fail> {
    let crossed: &[(Point, Point)] = &[(at(0, 0), at(1, 1)), (at(0, 1), at(1, 0))];
    let passed: &[(Point, Point)] = &[(at(0, 0), at(10, 2)), (at(4, 1), at(4, 9))];
    let wide: &[(Point, Point)] = &[(at(0, 0), at(639, 639)), (at(0, 639), at(639, 0))];
    let back: &[(Point, Point)] = &[(at(10, 2), at(0, 0)), (at(4, 1), at(4, 9))];
    let rows: [(&[(Point, Point)], usize, &[Point]); 7] = [
        (crossed, 0, &[at(0, 0), at(1, 1)]),
        (crossed, 1, &[at(0, 1), at(1, 1), at(1, 0)]),
        (passed, 0, &[at(0, 0), at(4, 1), at(10, 2)]),
        (passed, 1, &[at(4, 1), at(4, 9)]),
        (wide, 0, &[at(0, 0), at(320, 320), at(639, 639)]),
        (wide, 1, &[at(0, 639), at(320, 320), at(639, 0)]),
        (back, 0, &[at(10, 2), at(4, 1), at(0, 0)]),
    ];
    for (ends, number, want) in rows {
        let all = segments(rt.alloc(), ends)?;
        let found = hot_plain(rt.alloc(), &all)?;
        let segment = all.get(number).ok_or("no segment")?;
        let points = chain(rt.alloc(), segment, &found)?;
        assert_eq!(rt; points.as_slice(), want, "{segment:?}");
    }
    Ok(())
}

// Could catch a rounded ring that starts elsewhere or goes the other way round, and a definition by which
// a ring isn't pulled to the corners of another that it passes.
#[test]
fn rounded_rings_go_through_what_they_pass(rt: HostRuntime) -> Result<(), Fail> {
    let ring = Ring::rectangle(rt.alloc(), at(0, 0), at(20, 20));
    let sides = ring_sides(rt.alloc(), ring.points())?;
    let found = hot_plain(rt.alloc(), &sides)?;
    let walk = round_ring(rt.alloc(), &sides, &found, ring.points())?;
    let want = [at(0, 0), at(20, 0), at(20, 20), at(0, 20), at(0, 0)];
    assert_eq!(rt; walk.as_slice(), want.as_slice());
    Ok(())
}

// Could catch rings that are rounded each for itself, and a definition by which rounded rings cross: two
// squares that overlap have 12 edges.
#[test]
fn rounds_rings_together(rt: HostRuntime) -> Result<(), Fail> {
    let together = two_squares(&rt, rt.alloc())?;
    let rounded = Rounded::from_edges(rt.alloc(), together.edges())?;
    let clean = check_clean(rt.alloc(), rounded)?;
    assert_eq!(rt; clean.edges().len(), 12);
    Ok(())
}

// Could catch a definition of cleanness by which edges that touch or overlap are clean, or those that
// share an end are not, and a check that always runs out of memory.
#[test]
fn names_the_first_two_edges_that_are_not_clean(rt: HostRuntime) -> Result<(), Fail> {
    let rows: [(&[(Point, Point)], Option<CleanFault>); 6] = [
        (
            &[(at(0, 0), at(2, 2)), (at(0, 2), at(2, 0))],
            Some(CleanFault::NotClean {
                first: 0,
                second: 1,
            }),
        ),
        (&[(at(0, 0), at(2, 2)), (at(2, 2), at(2, 0))], None),
        (
            &[(at(0, 0), at(4, 0)), (at(2, 3), at(2, 0))],
            Some(CleanFault::NotClean {
                first: 0,
                second: 1,
            }),
        ),
        (
            &[
                (at(0, 5), at(0, 9)),
                (at(0, 0), at(4, 4)),
                (at(6, 6), at(2, 2)),
            ],
            Some(CleanFault::NotClean {
                first: 0,
                second: 2,
            }),
        ),
        (&[(at(0, 0), at(4, 4)), (at(0, 1), at(4, 5))], None),
        (&[(at(4, 4), at(0, 0)), (at(0, 0), at(4, 4))], None),
    ];
    for (ends, want) in rows {
        let all = edges(rt.alloc(), ends)?;
        let rounded = Rounded::from_edges(rt.alloc(), &all)?;
        let fault = check_clean(rt.alloc(), rounded).err();
        assert_eq!(rt; fault, want, "{ends:?}");
    }
    Ok(())
}

// Could catch a list of edges that is always empty: no clause says that a call succeeds.
#[test]
fn lends_distinct_edges_in_order(rt: HostRuntime) -> Result<(), Fail> {
    let given = edges(
        rt.alloc(),
        &[
            (at(4, 0), at(0, 0)),
            (at(0, 0), at(0, 4)),
            (at(0, 0), at(4, 0)),
        ],
    )?;
    let want = edges(rt.alloc(), &[(at(0, 0), at(0, 4)), (at(0, 0), at(4, 0))])?;
    let rounded = Rounded::from_edges(rt.alloc(), &given)?;
    assert_eq!(rt; rounded.edges(), want.as_slice());
    assert_eq!(rt; rounded.edges().len(), 2);
    assert!(rt; rounded.owners(1).is_empty());
    Ok(())
}

/// Returns the first shape of an input.
fn shape(input: Input) -> Owner {
    Owner { input, shape: 0 }
}

/// Whether these are the edges, between these points and with these owners.
fn are(clean: &CleanEdges, want: &[(Point, Point, &[Owner])]) -> bool {
    let edges = clean.edges();
    if edges.len() != want.len() {
        return false;
    }
    for number in 0..edges.len() {
        let (low, high, owners) = want[number];
        let edge = edges[number];
        if edge.low() != low || edge.high() != high || clean.owners(number) != owners {
            return false;
        }
    }
    true
}

// Could catch a rounding that always runs out of memory, and definitions by which an edge is owned by
// another shape than the one whose side it is a part of, or crossing sides aren't cut.
#[test]
fn two_squares_that_overlap_have_12_edges(rt: HostRuntime) -> Result<(), Fail> {
    let clean = two_squares(&rt, rt.alloc())?;
    let first: &[Owner] = &[shape(Input::First)];
    let second: &[Owner] = &[shape(Input::Second)];
    let want: [(Point, Point, &[Owner]); 12] = [
        (at(0, 0), at(0, 20), first),
        (at(0, 0), at(20, 0), first),
        (at(0, 20), at(10, 20), first),
        (at(10, 10), at(10, 20), second),
        (at(10, 10), at(20, 10), second),
        (at(10, 20), at(10, 30), second),
        (at(10, 20), at(20, 20), first),
        (at(10, 30), at(30, 30), second),
        (at(20, 0), at(20, 10), first),
        (at(20, 10), at(20, 20), first),
        (at(20, 10), at(30, 10), second),
        (at(30, 10), at(30, 30), second),
    ];
    assert!(rt; are(&clean, &want), "{clean:?}");
    Ok(())
}

// Could catch a definition by which an owner that goes an edge twice owns it, or by which such an edge
// goes away.
#[test]
fn edges_that_one_shape_goes_twice_stay_without_owners(rt: HostRuntime) -> Result<(), Fail> {
    let square = Ring::rectangle(rt.alloc(), at(0, 0), at(20, 20));
    let rings = [
        owned(Input::First, square.points()),
        owned(Input::First, square.points()),
    ];
    let clean = round(&rt, rt.alloc(), &rings)?;
    let want: [(Point, Point, &[Owner]); 4] = [
        (at(0, 0), at(0, 20), &[]),
        (at(0, 0), at(20, 0), &[]),
        (at(0, 20), at(20, 20), &[]),
        (at(20, 0), at(20, 20), &[]),
    ];
    assert!(rt; are(&clean, &want), "{clean:?}");
    Ok(())
}

// Could catch a definition by which shapes that go one edge take it from each other, or an order of
// owners by which the second input comes first.
#[test]
fn edges_that_two_shapes_go_have_both_for_owners(rt: HostRuntime) -> Result<(), Fail> {
    let square = Ring::rectangle(rt.alloc(), at(0, 0), at(20, 20));
    let rings = [
        owned(Input::Second, square.points()),
        owned(Input::First, square.points()),
    ];
    let clean = round(&rt, rt.alloc(), &rings)?;
    let both: &[Owner] = &[shape(Input::First), shape(Input::Second)];
    let want: [(Point, Point, &[Owner]); 4] = [
        (at(0, 0), at(0, 20), both),
        (at(0, 0), at(20, 0), both),
        (at(0, 20), at(20, 20), both),
        (at(20, 0), at(20, 20), both),
    ];
    assert!(rt; are(&clean, &want), "{clean:?}");
    Ok(())
}
