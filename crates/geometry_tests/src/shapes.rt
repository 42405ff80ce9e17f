//! Tests of the definition of shapes: here the proof is the test.
ghost use Rattle.std.specs.Prelude.{◌≡◌, List, [], ◌∷◌, pos, ℕ};
ghost use Rattle.lay_point.specs.declared.point.Point.{Point};
ghost use Rattle.lay_point.specs.Rings.{rectangle};
ghost use Rattle.lay_point.specs.Turns.{unturned};
ghost use Rattle.lay_flat.specs.Flat.{FlatRing};
ghost use Rattle.face_rows.specs.declared.op.Op.TheVariants.{Not, Or};
ghost use Rattle.bool_rules.specs.Shapes.{shapes_of};

// Could catch a definition by which a hole is a shape of its own, boxes that are apart are one
// shape or boxes that share a corner are two, and one that swaps the inputs. The values were found
// by hand: a ring begins at its least point, along its least edge there.
fn boxes_have_these_shapes()
    ensures hole { let at : ℕ → ℕ → Point = λ x y. record { x = pos x; y = pos y } in
        shapes_of Not ((rectangle (at 0 0) (at 40 40), unturned, 0) ∷ [])
        ((rectangle (at 10 10) (at 30 30), unturned, 0) ∷ [])
        ≡ ((at 0 0 ∷ at 0 40 ∷ at 40 40 ∷ at 40 0 ∷ [])
        ∷ (at 10 10 ∷ at 10 30 ∷ at 30 30 ∷ at 30 10 ∷ []) ∷ []) ∷ [] }
    ensures apart { let at : ℕ → ℕ → Point = λ x y. record { x = pos x; y = pos y } in
        shapes_of Or ((rectangle (at 0 0) (at 10 10), unturned, 0)
        ∷ (rectangle (at 20 0) (at 30 10), unturned, 1) ∷ []) []
        ≡ ((at 0 0 ∷ at 0 10 ∷ at 10 10 ∷ at 10 0 ∷ []) ∷ [])
        ∷ ((at 20 0 ∷ at 20 10 ∷ at 30 10 ∷ at 30 0 ∷ []) ∷ []) ∷ [] }
    ensures corner { let at : ℕ → ℕ → Point = λ x y. record { x = pos x; y = pos y } in
        shapes_of Or ((rectangle (at 0 0) (at 10 10), unturned, 0) ∷ [])
        ((rectangle (at 10 10) (at 20 20), unturned, 0) ∷ [])
        ≡ ((at 0 0 ∷ at 0 10 ∷ at 10 10 ∷ at 10 0 ∷ [])
        ∷ (at 10 10 ∷ at 10 20 ∷ at 20 20 ∷ at 20 10 ∷ []) ∷ []) ∷ [] }
{}

#[test]
fn boxes_have_the_shapes_that_were_found_by_hand() {
    boxes_have_these_shapes();
}
