//! Tests of what no clause says: that calls succeed with ample memory, and that the shapes are those of the
//! operations.

use crate::drawn::at;
use band_workers::OneBand;
use cif_layout::FromCif;
use face_rows::Op;
use lay_cells::CellId;
use lay_flat::flatten;
use lay_items::Snapshot;
use lay_point::{LayerName, Ring};
use layer_ops::*;
use std::alloc::Global;
use std::test::*;
use std::thread::Threads;

/// Returns the shapes of the operation on the layers A and B of a text.
fn shapes_of(
    rt: &(impl Threads + Sync),
    alloc: Global,
    text: &[u8],
    op: Op,
) -> Result<Vec<Vec<Ring>>, Fail> {
    let snapshot = Snapshot::from_cif(alloc, cif_read::read(alloc, text)?)?;
    let a = LayerName::new(b"A").ok_or("no layer name")?;
    let b = LayerName::new(b"B").ok_or("no layer name")?;
    let first = flatten(alloc, &snapshot, CellId::Top, &a)?;
    let second = flatten(alloc, &snapshot, CellId::Top, &b)?;
    Ok(combine(rt, alloc, op, &first, &second, &OneBand)?)
}

// Could catch an operation that is another one, or is the other way round, rings that begin or go elsewhere, and a
// hole that is a shape of its own.
#[test]
fn a_box_without_the_middle_is_one_shape(rt: HostRuntime) -> Result<(), Fail> {
    let text = b"L A; B 20 20 10 10; L B; B 10 10 10 10; E";
    let shapes = shapes_of(&rt, rt.alloc(), text, Op::Not)?;
    assert_eq!(rt; shapes.len(), 1);
    assert_eq!(rt; shapes[0].len(), 2);
    assert_eq!(rt;
        shapes[0][0].points(),
        [at(0, 0), at(0, 40), at(40, 40), at(40, 0)].as_slice()
    );
    assert_eq!(rt;
        shapes[0][1].points(),
        [at(10, 10), at(10, 30), at(30, 30), at(30, 10)].as_slice()
    );
    Ok(())
}

// Could catch parts that are joined though their boxes are apart, and an empty layer that takes the other's place.
#[test]
fn boxes_that_are_apart_are_two_shapes(rt: HostRuntime) -> Result<(), Fail> {
    let text = b"L A; B 5 5 2 2; B 5 5 12 2; E";
    let shapes = shapes_of(&rt, rt.alloc(), text, Op::Or)?;
    assert_eq!(rt; shapes.len(), 2);
    assert_eq!(rt; shapes[1].len(), 1);
    assert_eq!(rt; shapes_of(&rt, rt.alloc(), text, Op::And)?.len(), 0);
    Ok(())
}
