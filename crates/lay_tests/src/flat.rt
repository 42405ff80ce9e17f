//! Tests of what no clause says: that calls succeed, and that definitions mean what they should.

use cif_layout::FromCif;
use cif_read::read;
use lay_cells::CellId;
use lay_flat::*;
use lay_items::Snapshot;
use lay_point::{LayerName, Point};
use std::alloc::Global;
use std::io::Write;
use std::test::*;

// Could catch calls that fail though there is memory.
#[test]
fn a_box_is_lent_as_it_is(rt: HostRuntime) -> Result<(), Fail> {
    let alloc = rt.alloc();
    let snapshot = Snapshot::from_cif(alloc, read(alloc, b"L A; B 5 3 0 0; E")?)?;
    let layer = LayerName::new(b"A").ok_or("no layer name")?;
    let flat = flatten(alloc, &snapshot, CellId::Top, &layer)?;
    assert_eq!(rt; flat.rings().len(), 1);
    for ring in flat.rings() {
        assert_eq!(rt; ring.points.len(), 4);
        assert_eq!(rt; ring.shape_no, 0);
    }
    let none = flatten(alloc, &snapshot, CellId::Symbol(1), &layer);
    assert!(rt; none.is_err());
    Ok(())
}

/// Returns whether the ring's points are these, and where its turn takes each.
fn is_turned(ring: &FlatRing<'_>, points: &[Point], turned: &[Point]) -> bool {
    for (point, wanted) in points.iter().zip(turned.iter()) {
        if ring.turn.apply(*point) != Some(*wanted) {
            return false;
        }
    }
    ring.points == points
}

fn point(x: i32, y: i32) -> Point {
    Point { x, y }
}

// Could catch turns composed in the other order, in the definition and the code alike. The values were
// found by hand: mirrored, shifted by 20, then turned by a quarter; and the rings of the calls in order.
#[test]
fn a_triangle_is_mirrored_and_turned(rt: HostRuntime) -> Result<(), Fail> {
    let alloc = rt.alloc();
    let text = b"DS 1; L A; P 0 0 2 0 0 1; DF; DS 2; C 1 M X T 10 0; DF; C 2 R 0 1; C 1; E";
    let snapshot = Snapshot::from_cif(alloc, read(alloc, text)?)?;
    let layer = LayerName::new(b"A").ok_or("no layer name")?;
    let flat = flatten(alloc, &snapshot, CellId::Top, &layer)?;
    let drawn = [point(0, 0), point(4, 0), point(0, 2)];
    let turned = [point(0, 20), point(0, 16), point(-2, 20)];
    match flat.rings() {
        [first, second] => {
            assert!(rt; is_turned(first, &drawn, &turned));
            assert!(rt; is_turned(second, &drawn, &drawn));
        }
        _ => return Err("there aren't two rings".into()),
    }
    Ok(())
}

/// Returns a text of so many symbols, of which each but the last calls the next so many times, and the last has a box.
fn chain(alloc: Global, symbols: u32, times: u32) -> Result<Vec<u8>, Fail> {
    let mut text = Vec::new(alloc);
    for number in 1..symbols {
        write!(text, "DS {number};")?;
        put_calls(&mut text, number + 1, times)?;
        write!(text, " DF; ")?;
    }
    write!(text, "DS {symbols}; L A; B 2 2 0 0; DF; E")?;
    Ok(text)
}

/// Appends so many calls of the symbol.
fn put_calls(text: &mut Vec<u8>, symbol: u32, times: u32) -> Result<(), Fail> {
    for _ in 0..times {
        write!(text, " C {symbol};")?;
    }
    Ok(())
}

/// Returns how many rings are below symbol 1 of such a text, or why it isn't flattened.
fn rings_of(alloc: Global, symbols: u32, times: u32) -> Result<Result<usize, FlatFault>, Fail> {
    let text = chain(alloc, symbols, times)?;
    let snapshot = Snapshot::from_cif(alloc, read(alloc, &text)?)?;
    let layer = LayerName::new(b"A").ok_or("no layer name")?;
    let flat = flatten(alloc, &snapshot, CellId::Symbol(1), &layer);
    Ok(flat.map(|flat| flat.rings().len()))
}

// Could catch a limit of walks that counts only those that reach a ring, and a flattening that gives up before it.
#[test]
fn the_most_walks_are_flattened(rt: HostRuntime) -> Result<(), Fail> {
    assert_eq!(rt; rings_of(rt.alloc(), 16, 2)?, Ok(32_768));
    assert_eq!(rt; rings_of(rt.alloc(), 17, 2)?, Err(FlatFault::TooMany));
    Ok(())
}

// Could catch a depth that counts cells in place of calls, and a chain of the greatest depth that is refused.
#[test]
fn a_chain_of_64_calls_is_flattened(rt: HostRuntime) -> Result<(), Fail> {
    assert_eq!(rt; rings_of(rt.alloc(), 65, 1)?, Ok(1));
    assert_eq!(rt; rings_of(rt.alloc(), 66, 1)?, Err(FlatFault::TooDeep));
    Ok(())
}
