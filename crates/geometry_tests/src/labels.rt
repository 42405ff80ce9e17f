//! Tests of what no clause says: that calls succeed, and that the definitions are those of rows and
//! of an operation's edges.

use crate::drawn::{at, rounded, two_squares};
use face_labels::*;
use face_rows::{Band, Op, row_edges};
use lay_point::Ring;
use std::test::*;

// Could catch a row that lists level edges or edges that end below it, and an order from right to
// left.
#[test]
fn lists_the_edges_of_a_row(rt: HostRuntime) -> Result<(), Fail> {
    let edges = two_squares(&rt, rt.alloc())?;
    let rows: [(i32, &[usize]); 4] = [(-1, &[]), (5, &[0, 8]), (15, &[0, 3, 9, 11]), (30, &[])];
    for (row, want) in rows {
        let numbers = row_edges(rt.alloc(), &edges, row)?;
        assert_eq!(rt; numbers.as_slice(), want, "{row}");
    }
    Ok(())
}

// Could catch labels by another operation, of edges of other bands, or on one side only: of the AND
// of two squares that overlap the edges are the four round what they share.
#[test]
fn labels_the_edges_of_a_band(rt: HostRuntime) -> Result<(), Fail> {
    let edges = two_squares(&rt, rt.alloc())?;
    let low: &[(usize, bool)] = &[(0, false), (1, false), (8, false)];
    let high: &[(usize, bool)] = &[
        (2, false),
        (3, true),
        (4, true),
        (5, false),
        (6, true),
        (7, false),
        (9, true),
        (10, false),
        (11, false),
    ];
    let labels = label(rt.alloc(), &edges, Band { low: 0, high: 10 }, Op::And)?;
    assert_eq!(rt; labels.as_slice(), low);
    let labels = label(rt.alloc(), &edges, Band { low: 10, high: 31 }, Op::And)?;
    assert_eq!(rt; labels.as_slice(), high);
    Ok(())
}

// Could catch owners that are turned one after the other, so that an edge of both inputs is
// labelled.
#[test]
fn no_edge_is_of_one_square_alone(rt: HostRuntime) -> Result<(), Fail> {
    let square = Ring::rectangle(rt.alloc(), at(0, 0), at(20, 20));
    let edges = rounded(&rt, rt.alloc(), &square, &square)?;
    let want: &[(usize, bool)] = &[(0, false), (1, false), (2, false), (3, false)];
    let labels = label(rt.alloc(), &edges, Band::of(edges.edges()), Op::Xor)?;
    assert_eq!(rt; labels.as_slice(), want);
    Ok(())
}
