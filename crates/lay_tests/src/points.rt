//! Tests of what no clause says: that the definitions are the format's, and that calls succeed.
ghost use Rattle.std.specs.Prelude.{◌≡◌};

use lay_point::*;
use std::alloc::{AllocError, Global};
use std::test::*;

/// The point of these coordinates.
fn at(x: i32, y: i32) -> Point
    ensures { result ≡ record { x = x; y = y } }
{
    Point { x, y }
}

// Could catch a definition that drops other points than a reader of the format would, that closes
// the path, or that tests in another order: the proof only says that the code follows it.
#[test]
fn rings_lose_repeats_and_refuse_in_order(rt: HostRuntime) {
    let far = at(1_073_741_825, 0);
    let rows: [(&[Point], Result<&[Point], RingFault>); 10] = [
        (
            &[at(-5, -3), at(5, -3), at(5, 3), at(-5, 3)],
            Ok(&[at(-5, -3), at(5, -3), at(5, 3), at(-5, 3)]),
        ),
        (
            &[at(0, 0), at(0, 0), at(4, 0), at(4, 4), at(0, 0)],
            Ok(&[at(0, 0), at(4, 0), at(4, 4)]),
        ),
        (
            &[at(0, 0), at(4, 0), at(0, 0), at(4, 4), at(4, 4), at(4, 4)],
            Ok(&[at(0, 0), at(4, 0), at(0, 0), at(4, 4)]),
        ),
        (
            &[at(1 << 30, -(1 << 30)), at(-(1 << 30), 1 << 30), at(0, 0)],
            Ok(&[at(1 << 30, -(1 << 30)), at(-(1 << 30), 1 << 30), at(0, 0)]),
        ),
        (&[], Err(RingFault::FewPoints)),
        (&[at(1, 1), at(1, 1), at(1, 1)], Err(RingFault::FewPoints)),
        (&[at(0, 0), at(4, 0)], Err(RingFault::FewPoints)),
        (&[at(0, 0), far, at(0, 0)], Err(RingFault::FewPoints)),
        (&[at(0, 0), far, at(4, 4)], Err(RingFault::OutOfRange)),
        (
            &[at(0, 0), at(4, -1_073_741_825), at(4, 4)],
            Err(RingFault::OutOfRange),
        ),
    ];
    for (points, want) in rows {
        let ring = Ring::new(rt.alloc(), points);
        assert_eq!(rt;
            ring.as_ref().map(|r| r.points()).map_err(|f| *f),
            want,
            "{points:?}"
        );
    }
}

/// A path of so many points, no two of them equal.
fn path(alloc: Global, len: i32) -> Result<Vec<Point>, AllocError> {
    let mut points = Vec::new(alloc);
    for x in 0..len {
        points.push(at(x, 0))?;
    }
    Ok(points)
}

// Could catch a limit that is one off in the code and in the definition, and a ring that is refused
// as out of memory when there is enough.
#[test]
fn rings_have_65_536_points_at_most(rt: HostRuntime) -> Result<(), Fail> {
    for (len, fault) in [(65_536, None), (65_537, Some(RingFault::TooMany))] {
        let points = path(rt.alloc(), len)?;
        let ring = Ring::new(rt.alloc(), points.as_slice());
        assert_eq!(rt; ring.err(), fault, "{len} points");
    }
    Ok(())
}

// Could catch corners in another order in the definition than a box of the format has them.
#[test]
fn a_rectangle_goes_anticlockwise_from_its_lower_left_corner(rt: HostRuntime) {
    let ring = Ring::rectangle(rt.alloc(), at(-5, -3), at(5, 3));
    let want = [at(-5, -3), at(5, -3), at(5, 3), at(-5, 3)];
    assert_eq!(rt; ring.points(), want.as_slice());
}

// Could catch a definition with other bytes or another length than the format and the limit have.
#[test]
fn layer_names_are_1_to_16_digits_and_capitals(rt: HostRuntime) {
    let rows: [(&[u8], bool); 12] = [
        (b"A", true),
        (b"0Z9", true),
        (b"NM", true),
        (b"ABCDEFGHIJKLMNOP", true),
        (b"ABCDEFGHIJKLMNOPQ", false),
        (b"", false),
        (b"a", false),
        (b"Nm", false),
        (b"A B", false),
        (b"A_1", false),
        (b"/:", false),
        (b"@[", false),
    ];
    for (bytes, is_name) in rows {
        let name = LayerName::new(bytes);
        assert_eq!(rt; name.is_some(), is_name, "{bytes:?}");
        if let Some(name) = name {
            assert_eq!(rt; name.as_bytes(), bytes);
        }
    }
}

// Could catch an equality that can't be called with a type of one's own: its proof knows the elements by
// their bound alone.
#[test]
fn sequences_are_equal_where_their_elements_are(rt: HostRuntime) -> Result<(), Fail> {
    let points = [at(1, 2), at(3, 4)];
    let some = Sequence::from_vec(points.to_vec(rt.alloc())?);
    let same = Sequence::from_vec(points.to_vec(rt.alloc())?);
    let front = Sequence::from_vec(points[..1].to_vec(rt.alloc())?);
    assert_eq!(rt; some.as_slice(), points.as_slice());
    assert!(rt; some == same && some != front);
    Ok(())
}

// Could catch turns that go clockwise, mirror the other axis or come in another order, in the definition and
// in the code alike: the values are those of a symbol that is called mirrored and shifted within one that is
// called turned. Could catch a limit that is one off in both, and a composed turn that is refused.
#[test]
fn a_turn_mirrors_then_turns_then_shifts(rt: HostRuntime) -> Result<(), Fail> {
    let turn = |mirror, quarter, x, y| Turn {
        mirror,
        quarter,
        shift: at(x, y),
    };
    let inner = turn(true, Quarter::R0, 20, 0);
    let outer = turn(false, Quarter::R90, 0, 0);
    let both = inner.then(outer).ok_or("out of range")?;
    assert_eq!(rt; both, turn(true, Quarter::R90, 0, 20));
    let rows = [
        (both, at(0, 0), Some(at(0, 20))),
        (both, at(4, 0), Some(at(0, 16))),
        (both, at(0, 2), Some(at(-2, 20))),
        (turn(false, Quarter::R180, 1, 2), at(4, 3), Some(at(-3, -1))),
        (turn(false, Quarter::R270, 1, 2), at(4, 3), Some(at(4, -2))),
        (turn(true, Quarter::R270, 0, 0), at(4, 3), Some(at(3, 4))),
        (
            turn(false, Quarter::R0, 1 << 30, 0),
            at(0, 0),
            Some(at(1 << 30, 0)),
        ),
        (turn(false, Quarter::R0, 1 << 30, 0), at(1, 0), None),
        (turn(false, Quarter::R0, 0, -(1 << 30)), at(0, -1), None),
        (turn(true, Quarter::R0, 0, 0), at(i32::MIN, 0), None),
    ];
    for (turn, point, want) in rows {
        assert_eq!(rt; turn.apply(point), want, "{turn:?} of {point:?}");
    }
    let far = turn(false, Quarter::R0, 1 << 30, 0);
    assert_eq!(rt; outer.then(inner), Some(turn(true, Quarter::R270, 20, 0)));
    assert_eq!(rt;
        far.then(inner),
        Some(turn(true, Quarter::R0, 20 - (1 << 30), 0))
    );
    assert_eq!(rt; far.then(turn(false, Quarter::R0, 1, 0)), None);
    Ok(())
}
