//! The rings at the ends of walks, lent from the snapshot.
ghost use Rattle.std.specs.Prelude.{◌≡◌, ◌+◌, ◌++◌, ◌∷◌, [], ◌≤◌, IfErr, IfOk, OnOk, length};
ghost use Rattle.lay_flat.specs.declared.flat.TheConstants.{MAX_RINGS};
ghost use Rattle.lay_flat.specs.Flattening.{drawn_at, rings_at, rings_from, rings_of};
ghost use Rattle.lay_flat.specs.Lending.{AreRings, IsTooMany, drawn_with};

use crate::ends::End;
use crate::fault::FlatFault;
use crate::flat::{FlatRing, MAX_RINGS};
use crate::shape_lists::{Shape, ShapeLists};
use lay_items::Snapshot;
use lay_point::{LayerName, NoMemory, Ring, Turn};
use std::alloc::Global;

/// Returns the rings of the shapes on a layer at these ends, in order.
pub(crate) fn lend_rings<'s>(
    alloc: Global,
    snapshot: &'s Snapshot,
    ends: &[End],
    layer: &LayerName,
) -> Result<Vec<FlatRing<'s>>, FlatFault>
    ensures ok { IfOk result (λ rings. rings.items ≡ rings_at snapshot.now layer.now ends.now) }
    ensures few { IfOk result (λ rings. length rings.items ≤ MAX_RINGS) }
    ensures rings { IfOk result (λ rings. AreRings rings.items) }
    ensures err { IfErr result (IsTooMany (rings_at snapshot.now layer.now ends.now)) }
{
    let mut rings = Vec::new(alloc);
    let mut lists = ShapeLists::new(alloc, snapshot, layer);
    let mut number = 0;
    for end in ends {
        number = lend_end(alloc, &mut lists, end, number, &mut rings)?;
    }
    Ok(rings)
}

/// Appends the rings of the listed layer's shapes at an end, numbered from this number on. Returns the number
/// behind them.
fn lend_end<'s>(
    alloc: Global,
    lists: &mut ShapeLists<'s>,
    end: &End,
    number: u32,
    rings: &mut Vec<FlatRing<'s>>,
) -> Result<u32, FlatFault>
    requires few { length rings.old.items ≤ MAX_RINGS }
    requires rings { AreRings rings.old.items }
    ensures same { OnOk result (lists.new ≡ lists.old) }
    ensures ok { OnOk result (rings.new.items
        ≡ rings.old.items ++ rings_from number (drawn_at lists.old.layout lists.old.layer end.now)) }
    ensures number { IfOk result
        (λ next. next ≡ number + length (drawn_at lists.old.layout lists.old.layer end.now)) }
    ensures few { OnOk result (length rings.new.items ≤ MAX_RINGS) }
    ensures rings { OnOk result (AreRings rings.new.items) }
    ensures err { IfErr result (IsTooMany
        (rings.old.items ++ rings_from number (drawn_at lists.old.layout lists.old.layer end.now))) }
{
    let turn = end.turn.unwrap_or(Turn::unturned());
    let shapes = lists.of(alloc, end.cell)?;
    lend_shapes(shapes.as_slice(), turn, number, rings)
}

/// Appends the rings of these shapes, numbered from this number on. Returns the number behind them.
fn lend_shapes<'s>(
    shapes: &[Shape<'s>],
    turn: Turn,
    number: u32,
    rings: &mut Vec<FlatRing<'s>>,
) -> Result<u32, FlatFault>
    requires few { length rings.old.items ≤ MAX_RINGS }
    requires rings { AreRings rings.old.items }
    ensures ok { OnOk result (rings.new.items
        ≡ rings.old.items ++ rings_from number (drawn_with turn shapes.now)) }
    ensures number { IfOk result (λ next. next ≡ number + length shapes.now) }
    ensures few { OnOk result (length rings.new.items ≤ MAX_RINGS) }
    ensures rings { OnOk result (AreRings rings.new.items) }
    ensures err { IfErr result (IsTooMany
        (rings.old.items ++ rings_from number (drawn_with turn shapes.now))) }
{
    let mut next = number;
    for shape in shapes {
        lend_shape(shape.rings, turn, next, rings)?;
        next = one_more(next)?;
    }
    Ok(next)
}

/// Appends the rings of a shape.
fn lend_shape<'s>(
    shape: &'s [Ring],
    turn: Turn,
    number: u32,
    rings: &mut Vec<FlatRing<'s>>,
) -> Result<(), FlatFault>
    requires few { length rings.old.items ≤ MAX_RINGS }
    requires rings { AreRings rings.old.items }
    ensures ok { OnOk result (rings.new.items ≡ rings.old.items ++ rings_of number (turn, shape.now)) }
    ensures few { OnOk result (length rings.new.items ≤ MAX_RINGS) }
    ensures rings { OnOk result (AreRings rings.new.items) }
    ensures err { IfErr result (IsTooMany (rings.old.items ++ rings_of number (turn, shape.now))) }
{
    for ring in shape {
        if rings.len() >= MAX_RINGS {
            return Err(FlatFault::TooMany);
        }
        let points = ring.points();
        push(
            rings,
            FlatRing {
                points,
                turn,
                shape_no: number,
            },
        )?;
    }
    Ok(())
}

/// Appends a ring.
fn push<'s>(rings: &mut Vec<FlatRing<'s>>, ring: FlatRing<'s>) -> Result<(), NoMemory>
    ensures { OnOk result (rings.new.items ≡ rings.old.items ++ ring.entry ∷ []) }
{
    rings.push(ring)?;
    Ok(())
}

/// Returns the next number, where a `u32` has it.
fn one_more(number: u32) -> Result<u32, NoMemory>
    ensures { IfOk result (λ next. next ≡ number + 1) }
{
    number.checked_add(1).ok_or(NoMemory)
}
