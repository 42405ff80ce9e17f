//! The laws, as calls that do nothing.
ghost use Rattle.cif_laws.specs.Boxes.{BoxesHoldTheirPoints};
ghost use Rattle.cif_laws.specs.Changes.{CallsMovePoints};
ghost use Rattle.cif_laws.specs.Distances.{DistancesAreScaled};

/// A distance is whole where a whole number is what it is at its scale, and is then that number. The scale is that
/// of the definition, and 1 to 1 outside. A polygon's corners are the places of its vertices, in their order.
pub fn distances_are_scaled()
    ensures { DistancesAreScaled }
{}

/// A call takes a point where its changes take it, one after the other, and nowhere else.
pub fn calls_move_points()
    ensures { CallsMovePoints }
{}

/// A box holds the points whose distances from its centre, along its direction and across it, are at most half its
/// length and half its width. One that is dropped has a side of zero.
pub fn boxes_hold_their_points()
    ensures { BoxesHoldTheirPoints }
{}
