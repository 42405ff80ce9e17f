//! Tests of what no clause says: that texts are written, and that definitions mean what they should.

use crate::boxes::{Rectangles, box_as};
use crate::points::put_bridged;
use crate::text::put_call;
use crate::wrap::least_unused;
use crate::writer::{WriteFault, prepare, write};
use byte_io::{Failing, MemoryOut, OutBuffer};
use cif_layout::FromCif;
use lay_cells::Cells;
use lay_items::Snapshot;
use lay_point::{Point, Quarter, Ring, Turn};
use std::alloc::Global;
use std::test::*;

/// Writes what the text means to the device.
fn rewrite(alloc: Global, text: &[u8], out: &mut MemoryOut) -> Result<(), WriteFault> {
    let Ok(file) = cif_read::read(alloc, text) else {
        return Err(WriteFault::NoMemory);
    };
    write(alloc, &Snapshot::from_cif(alloc, file)?, out)
}

// Could catch a definition of the text that isn't the format: its spaces, newlines and letters, the order of a ring's
// numbers, when a layer is named, signs and digits. The proof only says that the code follows the definition.
#[test]
fn writes_the_lines_of_the_format(rt: HostRuntime) {
    let rows: [(&[u8], &[u8]); 5] = [
        (
            b"L NM; B 40 20 0 0; E",
            b"DS 1 1 2;\nL NM;\nP -40 -20 40 -20 40 20 -40 20;\nDF;\nC 1;\nE\n",
        ),
        (b"E", b"DS 1 1 2;\nDF;\nC 1;\nE\n"),
        (
            b"L A; B 2 2 0 0; B 2 4 0 0; L B; B 2 2 9 9; L A; B 2 2 0 0; E",
            b"DS 1 1 2;\nL A;\nP -2 -2 2 -2 2 2 -2 2;\nP -2 -4 2 -4 2 4 -2 4;\nL B;\nP 16 16 20 16 20 20 16 20;\nL A;\nP -2 -2 2 -2 2 2 -2 2;\nDF;\nC 1;\nE\n",
        ),
        (
            b"L A; B 2 2 -536870911 536870911; E",
            b"DS 1 1 2;\nL A;\nP -1073741824 1073741820 -1073741820 1073741820 -1073741820 1073741824 -1073741824 1073741824;\nDF;\nC 1;\nE\n",
        ),
        (
            b"L 0Z; B 10 5 5 5; E",
            b"DS 1 1 2;\nL 0Z;\nP 0 5 20 5 20 15 0 15;\nDF;\nC 1;\nE\n",
        ),
    ];
    for (text, want) in rows {
        let mut out = MemoryOut::new(rt.alloc(), 1000, 1000, Failing::ByErr);
        assert_eq!(rt; rewrite(rt.alloc(), text, &mut out), Ok(()), "{want:?}");
        assert_eq!(rt; out.written(), want);
    }
}

/// Writes what the text means to the device, with boxes.
fn rewrite_boxed(alloc: Global, text: &[u8], out: &mut MemoryOut) -> Result<(), WriteFault> {
    let Ok(file) = cif_read::read(alloc, text) else {
        return Err(WriteFault::NoMemory);
    };
    let snapshot = Snapshot::from_cif(alloc, file)?;
    Ok(prepare(&snapshot)?.put_as(out, Rectangles::Boxes)?)
}

/// Returns what a written text has between the head and the end of its only definition.
fn body_of(written: &[u8]) -> Option<&[u8]> {
    written
        .strip_prefix(b"DS 1 1 2;\n")?
        .strip_suffix(b"DF;\nC 1;\nE\n")
}

// Could catch a definition of a box that isn't the format: its unit, the order of its numbers, where its centre is, and which
// paths are boxes: the rectangles that begin at any corner and run either way.
#[test]
fn upright_rectangles_are_written_as_boxes(rt: HostRuntime) {
    let rows: [(&[u8], &[u8]); 6] = [
        (b"L NM; B 40 20 0 0; E", b"L NM;\nB 80 40 0 0;\n"),
        (b"L A; P 3 5 3 2 -1 2 -1 5; E", b"L A;\nB 8 6 2 7;\n"),
        (b"L A; P -1 5 -1 2 3 2 3 5; E", b"L A;\nB 8 6 2 7;\n"),
        (b"L A; P -1 2 -1 5 3 5 3 2; E", b"L A;\nB 8 6 2 7;\n"),
        (
            b"L A; B 2 2 0 0; B 2 4 0 0; L B; B 2 2 9 -9; E",
            b"L A;\nB 4 4 0 0;\nB 4 8 0 0;\nL B;\nB 4 4 18 -18;\n",
        ),
        (
            b"DS 1 1 2; L A; P -1073741824 0 1073741822 0 1073741822 2 -1073741824 2; DF; C 1; E",
            b"L A;\nB 2147483646 2 -1 1;\n",
        ),
    ];
    for (text, want) in rows {
        let mut out = MemoryOut::new(rt.alloc(), 1000, 1000, Failing::ByErr);
        assert_eq!(rt;
            rewrite_boxed(rt.alloc(), text, &mut out),
            Ok(()),
            "{want:?}"
        );
        assert_eq!(rt; body_of(out.written()), Some(want));
    }
}

// Could catch a box with an odd middle, with a point more, or too long, and a box for another shape of four points.
#[test]
fn other_shapes_are_not_written_as_boxes(rt: HostRuntime) {
    let rows: [(&[u8], &[u8]); 7] = [
        (
            b"DS 1 1 2; L A; P 0 0 3 0 3 2 0 2; DF; C 1; E",
            b"L A;\nP 0 0 3 0 3 2 0 2;\n",
        ),
        (
            b"DS 1 1 2; L A; P 0 0 2 0 2 3 0 3; DF; C 1; E",
            b"L A;\nP 0 0 2 0 2 3 0 3;\n",
        ),
        (
            b"L A; P 0 0 2 0 2 1 1 1 1 2 0 2; E",
            b"L A;\nP 0 0 4 0 4 2 2 2 2 4 0 4;\n",
        ),
        (
            b"L A; P 0 0 1 0 2 0 2 2 0 2; E",
            b"L A;\nP 0 0 2 0 4 0 4 4 0 4;\n",
        ),
        (b"L A; P 0 1 1 0 2 1 1 2; E", b"L A;\nP 0 2 2 0 4 2 2 4;\n"),
        (b"L A; P 0 0 2 2 2 0 0 2; E", b"L A;\nP 0 0 4 4 4 0 0 4;\n"),
        (
            b"DS 1 1 2; L A; P -1073741824 0 1073741824 0 1073741824 2 -1073741824 2; DF; C 1; E",
            b"L A;\nP -1073741824 0 1073741824 0 1073741824 2 -1073741824 2;\n",
        ),
    ];
    for (text, want) in rows {
        let mut out = MemoryOut::new(rt.alloc(), 1000, 1000, Failing::ByErr);
        assert_eq!(rt;
            rewrite_boxed(rt.alloc(), text, &mut out),
            Ok(()),
            "{want:?}"
        );
        assert_eq!(rt; body_of(out.written()), Some(want));
    }
}

// Could catch a shape with a hole that is written as the box round it.
#[test]
fn a_shape_of_several_rings_is_no_box(rt: HostRuntime) -> Result<(), Fail> {
    let mut rings = Vec::new(rt.alloc());
    rings.push(ring(rt.alloc(), &[(0, 0), (8, 0), (8, 8), (0, 8)])?)?;
    assert!(rt; box_as(Rectangles::Boxes, &rings).is_some());
    assert!(rt; box_as(Rectangles::Polygons, &rings).is_none());
    rings.push(ring(rt.alloc(), &[(2, 2), (2, 6), (6, 6), (6, 2)])?)?;
    assert!(rt; box_as(Rectangles::Boxes, &rings).is_none());
    Ok(())
}

// Could catch an answer that changes where a device fails in mid-text, and a text that is put in pieces.
#[test]
fn a_failing_device_has_a_prefix_of_the_text(rt: HostRuntime) {
    let rows: [(usize, Failing, Result<(), WriteFault>, &[u8]); 3] = [
        (10, Failing::ByErr, Err(WriteFault::Device), b"DS 1 1 2;\n"),
        (10, Failing::ByZero, Err(WriteFault::Device), b"DS 1 1 2;\n"),
        (0, Failing::ByZero, Err(WriteFault::Device), b""),
    ];
    for (room, failing, want, written) in rows {
        let mut out = MemoryOut::new(rt.alloc(), 3, room, failing);
        let result = rewrite(rt.alloc(), b"L NM; B 40 20 0 0; E", &mut out);
        assert_eq!(rt; result, want, "room {room}");
        assert_eq!(rt; out.written(), written, "room {room}");
    }
}

// Could catch bytes that are lost, change places or come twice where the buffer runs full, and a
// failure that is forgotten or met again while the rest of the text is put.
#[test]
fn a_text_longer_than_the_buffer_is_cut_where_the_device_fails(
    rt: HostRuntime,
) -> Result<(), Fail> {
    let mut text = Vec::from_slice(rt.alloc(), b"L NM;")?;
    let mut whole = Vec::from_slice(rt.alloc(), b"DS 1 1 2;\nL NM;\n")?;
    for _ in 0..1200 {
        text.extend_from_slice(b"B 40 20 0 0;")?;
        whole.extend_from_slice(b"P -40 -20 40 -20 40 20 -40 20;\n")?;
    }
    text.extend_from_slice(b"E")?;
    whole.extend_from_slice(b"DF;\nC 1;\nE\n")?;
    let rows: [(usize, Result<(), WriteFault>, usize); 5] = [
        (0, Err(WriteFault::Device), 0),
        (16_383, Err(WriteFault::Device), 16_383),
        (20_000, Err(WriteFault::Device), 20_000),
        (37_226, Err(WriteFault::Device), 37_226),
        (37_227, Ok(()), 37_227),
    ];
    for (room, want, written) in rows {
        let mut out = MemoryOut::new(rt.alloc(), 1000, room, Failing::ByZero);
        assert_eq!(rt; rewrite(rt.alloc(), &text, &mut out), want, "room {room}");
        assert_eq!(rt; out.written().len(), written, "room {room}");
        assert!(rt; whole.starts_with(out.written()), "room {room}");
    }
    Ok(())
}

/// Returns the ring of the corners.
fn ring(alloc: Global, corners: &[(i32, i32)]) -> Result<Ring, Fail> {
    let mut points = Vec::new(alloc);
    for (x, y) in corners {
        points.push(Point { x: *x, y: *y })?;
    }
    Ok(Ring::new(alloc, &points)?)
}

// Could catch a path that goes round the rings in another order, one that doesn't come back to the
// start, and a repeat that is put where rings begin at one point.
#[test]
fn one_path_goes_round_all_rings(rt: HostRuntime) -> Result<(), Fail> {
    let square: &[(i32, i32)] = &[(0, 0), (4, 0), (4, 4), (0, 4)];
    let inner: &[(i32, i32)] = &[(1, 1), (2, 1), (2, 2)];
    let touching: &[(i32, i32)] = &[(0, 0), (-1, 0), (-1, -1)];
    let rows: [(&[&[(i32, i32)]], &[u8]); 5] = [
        (&[], b""),
        (&[square], b" 0 0 4 0 4 4 0 4"),
        (&[square, inner], b" 0 0 4 0 4 4 0 4 0 0 1 1 2 1 2 2 1 1"),
        (&[square, touching], b" 0 0 4 0 4 4 0 4 0 0 -1 0 -1 -1"),
        (
            &[square, touching, inner],
            b" 0 0 4 0 4 4 0 4 0 0 -1 0 -1 -1 0 0 1 1 2 1 2 2 1 1",
        ),
    ];
    for (shape, want) in rows {
        let mut rings = Vec::new(rt.alloc());
        for corners in shape {
            rings.push(ring(rt.alloc(), corners)?)?;
        }
        let mut out = MemoryOut::new(rt.alloc(), 1000, 1000, Failing::ByErr);
        let mut buffer = OutBuffer::new();
        put_bridged(&mut out, &mut buffer, &rings);
        assert!(rt; buffer.flush(&mut out).is_ok(), "{want:?}");
        assert_eq!(rt; out.written(), want);
    }
    Ok(())
}

/// Returns the turn.
fn turn(mirror: bool, quarter: Quarter, x: i32, y: i32) -> Turn {
    Turn {
        mirror,
        quarter,
        shift: Point { x, y },
    }
}

// Could catch a definition of a call's changes that isn't the format: their order, their letters, the direction of a quarter
// turn, or a change that is written though there is none.
#[test]
fn a_call_says_what_it_changes(rt: HostRuntime) {
    let rows: [(u32, Turn, &[u8]); 6] = [
        (1, turn(false, Quarter::R0, 0, 0), b"C 1;\n"),
        (1, turn(true, Quarter::R0, 20, 0), b"C 1 M X T 20 0;\n"),
        (2, turn(false, Quarter::R90, 0, 0), b"C 2 R 0 1;\n"),
        (
            7,
            turn(false, Quarter::R180, 0, -5),
            b"C 7 R -1 0 T 0 -5;\n",
        ),
        (
            7,
            turn(true, Quarter::R270, -1, 2),
            b"C 7 M X R 0 -1 T -1 2;\n",
        ),
        (
            999_999_999,
            turn(true, Quarter::R0, 0, 0),
            b"C 999999999 M X;\n",
        ),
    ];
    for (number, turn, want) in rows {
        let mut out = MemoryOut::new(rt.alloc(), 1000, 1000, Failing::ByErr);
        let mut buffer = OutBuffer::new();
        put_call(&mut out, &mut buffer, number, turn);
        assert!(rt; buffer.flush(&mut out).is_ok(), "{want:?}");
        assert_eq!(rt; out.written(), want);
    }
}

// Could catch 0 as a number for the wrapping symbol, a number that is in use, and one that isn't the least.
#[test]
fn the_wrapping_symbol_has_the_least_unused_number(rt: HostRuntime) -> Result<(), Fail> {
    let rows: [(&[u32], u32); 6] = [
        (&[], 1),
        (&[1], 2),
        (&[2], 1),
        (&[0, 1], 2),
        (&[4, 2, 1], 3),
        (&[3, 1, 2], 4),
    ];
    for (numbers, want) in rows {
        let mut cells = Cells::new(rt.alloc());
        for number in numbers {
            cells.add(*number)?;
        }
        assert_eq!(rt; least_unused(&cells), Ok(want), "{numbers:?}");
    }
    Ok(())
}

// Could catch a top cell that is wrapped though it is one plain call, and one that isn't though it is more.
#[test]
fn only_one_plain_call_is_not_wrapped(rt: HostRuntime) {
    let rows: [(&[u8], &[u8]); 5] = [
        (b"DS 3; DF; C 3; E", b"DS 3 1 2;\nDF;\nC 3;\nE\n"),
        (
            b"DS 3; DF; C 3; C 3; E",
            b"DS 3 1 2;\nDF;\nDS 1 1 2;\nC 3;\nC 3;\nDF;\nC 1;\nE\n",
        ),
        (
            b"DS 3; DF; C 3 M X; E",
            b"DS 3 1 2;\nDF;\nDS 1 1 2;\nC 3 M X;\nDF;\nC 1;\nE\n",
        ),
        (
            b"DS 3; DF; C 3 R -1 0; E",
            b"DS 3 1 2;\nDF;\nDS 1 1 2;\nC 3 R -1 0;\nDF;\nC 1;\nE\n",
        ),
        (
            b"DS 3; DF; C 3 T 0 1; E",
            b"DS 3 1 2;\nDF;\nDS 1 1 2;\nC 3 T 0 2;\nDF;\nC 1;\nE\n",
        ),
    ];
    for (text, want) in rows {
        let mut out = MemoryOut::new(rt.alloc(), 1000, 1000, Failing::ByErr);
        assert_eq!(rt; rewrite(rt.alloc(), text, &mut out), Ok(()), "{want:?}");
        assert_eq!(rt; out.written(), want);
    }
}
