//! Tests of what no clause says: that the definitions are those of the format and of the rule, and that
//! calls succeed.
ghost use Rattle.std.specs.Prelude.{◌≡◌, [], ◌∷◌, List, neg_ℤ, pos, true, false, ℕ};
ghost use Rattle.lay_point.specs.declared.point.Point.{Point};
ghost use Rattle.lay_point.specs.Parity.{odd};
ghost use Rattle.lay_point.specs.RingEdges.{edges_of_ring};
ghost use Rattle.lay_point.specs.Rings.{rectangle};
ghost use Rattle.face_ring_laws.specs.Linking.{linked_rings};

use face_rings::*;
use lay_point::{Point, Ring};
use std::alloc::{AllocError, Global};
use std::test::*;

/// Returns the ring of these points.
fn ring_of(alloc: Global, path: &[(i32, i32)]) -> Result<Ring, Fail> {
    let mut points = Vec::new(alloc);
    for (x, y) in path {
        points.push(Point { x: *x, y: *y })?;
    }
    Ok(Ring::new(alloc, &points)?)
}

/// Returns the coordinates of the points, each with a space before it.
fn text_of(alloc: Global, points: &[Point]) -> Result<String, AllocError> {
    let mut text = String::new(alloc);
    for point in points {
        text.push_str(&format!(in alloc; " {} {}", point.x, point.y)?)?;
    }
    Ok(text)
}

/// Returns the coordinates of the bridged path of these rings.
fn bridge_of(alloc: Global, paths: &[&[(i32, i32)]]) -> Result<String, Fail> {
    let mut rings = Vec::new(alloc);
    for path in paths {
        rings.push(ring_of(alloc, path)?)?;
    }
    Ok(text_of(alloc, &bridge(alloc, &rings)?)?)
}

// Could catch a definition of the path that begins elsewhere, goes on from ring to ring in place of going
// back, ends at the start again, or keeps a repeat: the proof only says that the code follows it. Could
// also catch a call that fails where there is memory.
#[test]
fn one_path_goes_round_all_rings(rt: HostRuntime) -> Result<(), Fail> {
    let square: &[(i32, i32)] = &[(0, 0), (0, 40), (40, 40), (40, 0)];
    let hole: &[(i32, i32)] = &[(10, 10), (10, 30), (30, 30), (30, 10)];
    let corner: &[(i32, i32)] = &[(0, 0), (10, 20), (20, 10)];
    let wall: &[(i32, i32)] = &[(0, 0), (0, 20), (60, 20), (60, 0)];
    let left: &[(i32, i32)] = &[(10, 5), (10, 15), (20, 15), (20, 5)];
    let right: &[(i32, i32)] = &[(40, 5), (40, 15), (50, 15), (50, 5)];
    let rows: [(&[&[(i32, i32)]], &str); 5] = [
        (&[], ""),
        (&[square], " 0 0 0 40 40 40 40 0"),
        (
            &[square, hole],
            " 0 0 0 40 40 40 40 0 0 0 10 10 10 30 30 30 30 10 10 10",
        ),
        (
            &[wall, left, right],
            " 0 0 0 20 60 20 60 0 0 0 10 5 10 15 20 15 20 5 10 5 0 0 40 5 40 15 50 15 50 5 40 5",
        ),
        (&[square, corner], " 0 0 0 40 40 40 40 0 0 0 10 20 20 10"),
    ];
    for (paths, want) in rows {
        let text = bridge_of(rt.alloc(), paths)?;
        assert_eq!(rt; text.as_str(), want, "{paths:?}");
    }
    Ok(())
}

// Could catch a definition of parity by which nothing is inside, which every path would keep, and one by
// which a scale, an end of an edge or a side counts otherwise than the rule says. The square goes from
// (0, 0) to (4, 4), and owns its left and lower sides. Here the proof is the test.
#[tactic(auto, unfolding(lay_point::specs::Parity::odd))]
fn a_square_has_these_places_inside()
    ensures inside { let square = edges_of_ring (rectangle (record { x = pos 0; y = pos 0 }) (record { x = pos 4; y = pos 4 })) in
        (odd square (pos 1) (pos 2) (pos 2) ≡ true) × (odd square (pos 2) (pos 7) (pos 1) ≡ true) }
    ensures outside { let square = edges_of_ring (rectangle (record { x = pos 0; y = pos 0 }) (record { x = pos 4; y = pos 4 })) in
        (odd square (pos 1) (neg_ℤ (pos 1)) (pos 2) ≡ false) × (odd square (pos 1) (pos 2) (pos 7) ≡ false) }
    ensures sides { let square = edges_of_ring (rectangle (record { x = pos 0; y = pos 0 }) (record { x = pos 4; y = pos 4 })) in
        (odd square (pos 1) (pos 0) (pos 2) ≡ true) × (odd square (pos 1) (pos 2) (pos 0) ≡ true)
        × (odd square (pos 1) (pos 4) (pos 2) ≡ false) × (odd square (pos 1) (pos 2) (pos 4) ≡ false) }
{}

// Could catch a rule that starts a ring elsewhere, goes the other way round, or goes straight on where two
// rings meet: of the squares from (0, 0) to (2, 2) and from (2, 2) to (4, 4) each is a ring of its own.
#[tactic(auto, unfolding(face_ring_laws::specs::Linking::linked_rings))]
fn squares_that_meet_at_a_corner_are_two_rings()
    ensures { let at : ℕ → ℕ → Point = λ x y. record { x = pos x; y = pos y } in
        linked_rings ((at 0 0, at 0 2) ∷ (at 0 0, at 2 0) ∷ (at 0 2, at 2 2) ∷ (at 2 0, at 2 2)
        ∷ (at 2 2, at 2 4) ∷ (at 2 2, at 4 2) ∷ (at 2 4, at 4 4) ∷ (at 4 2, at 4 4) ∷ [])
        ≡ (at 0 0 ∷ at 0 2 ∷ at 2 2 ∷ at 2 0 ∷ []) ∷ (at 2 2 ∷ at 2 4 ∷ at 4 4 ∷ at 4 2 ∷ []) ∷ [] }
{}
