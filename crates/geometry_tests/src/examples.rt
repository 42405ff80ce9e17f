//! The examples of the root files, run. Each could catch an example that isn't true of the calls that it shows.

use crate::drawn::at;
use band_workers::{Bands, OneBand};
use cif_layout::FromCif;
use face_labels::label;
use face_rows::{Band, Op};
use lay_cells::CellId;
use lay_flat::flatten;
use lay_items::Snapshot;
use lay_point::{Edge, LayerName, Point, Ring};
use layer_ops::combine;
use snap_chains::{Input, OwnedRing, Owner, round};
use snap_edge_laws::meet_at_ends;
use snap_pixels::{Segment, hot};
use std::test::*;

#[test]
fn a_crossing_is_hot(rt: HostRuntime) -> Result<(), Fail> {
    let alloc = rt.alloc();
    let ends = [
        (Point { x: 0, y: 0 }, Point { x: 639, y: 639 }),
        (Point { x: 0, y: 639 }, Point { x: 639, y: 0 }),
    ];
    let mut segments = Vec::new(alloc);
    for (a, b) in ends {
        if let Some(segment) = Segment::new(a, b) {
            segments.push(segment)?;
        }
    }
    let found = hot(&rt, alloc, &segments)?;
    assert!(rt; found.contains(Point { x: 320, y: 320 }));
    Ok(())
}

#[test]
fn diagonals_cross(rt: HostRuntime) {
    let (a, b, c, d) = (at(0, 0), at(10, 10), at(0, 10), at(10, 0));
    let crossed = match (Edge::new(a, b), Edge::new(c, d)) {
        (Some(e), Some(f)) => e != f && !meet_at_ends(e, f),
        _ => false,
    };
    assert!(rt; crossed);
}

#[test]
fn a_ring_is_rounded(rt: HostRuntime) -> Result<(), Fail> {
    let alloc = rt.alloc();
    let ring = Ring::rectangle(alloc, at(0, 0), at(20, 20));
    let owner = Owner {
        input: Input::First,
        shape: 0,
    };
    let points = ring.points();
    let clean = round(&rt, alloc, &[OwnedRing { owner, points }])?;
    assert_eq!(rt; clean.edges().len(), 4);
    for number in 0..clean.edges().len() {
        assert_eq!(rt; clean.owners(number), [owner].as_slice());
    }
    Ok(())
}

#[test]
fn edges_are_labelled(rt: HostRuntime) -> Result<(), Fail> {
    let alloc = rt.alloc();
    let ring = Ring::rectangle(alloc, at(0, 0), at(20, 20));
    let owner = Owner {
        input: Input::First,
        shape: 0,
    };
    let points = ring.points();
    let rings = [OwnedRing { owner, points }];
    let clean = round(&rt, alloc, &rings)?;
    let labels = OneBand.label_all(&rt, alloc, &clean, Op::Or)?;
    assert_eq!(rt; labels.as_slice(), [true; 4].as_slice());
    let band = Band {
        low: 0,
        high: 1_000,
    };
    let labels = label(alloc, &clean, band, Op::And)?;
    assert!(rt; labels.iter().all(|label| !label.1));
    Ok(())
}

#[test]
fn layers_are_combined(rt: HostRuntime) -> Result<(), Fail> {
    let alloc = rt.alloc();
    let text = b"L A; B 20 20 10 10; L B; B 10 10 10 10; E";
    let snapshot = Snapshot::from_cif(alloc, cif_read::read(alloc, text)?)?;
    let a = LayerName::new(b"A").ok_or("no layer name")?;
    let b = LayerName::new(b"B").ok_or("no layer name")?;
    let first = flatten(alloc, &snapshot, CellId::Top, &a)?;
    let second = flatten(alloc, &snapshot, CellId::Top, &b)?;
    let shapes = combine(&rt, alloc, Op::Not, &first, &second, &OneBand)?;
    assert_eq!(rt; shapes.len(), 1);
    Ok(())
}
