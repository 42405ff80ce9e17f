//! What holds of all quadrilaterals and their diagonals, as calls that do nothing.
ghost use Rattle.snap_edge_laws.specs.Areas.{AreasBalance, AreasWeigh};
ghost use Rattle.snap_edge_laws.specs.Pieces.{PiecesTouchFirst};

/// The areas at the four corners of a quadrilateral.
pub fn areas_have_laws()
    ensures balance { AreasBalance }
    ensures weigh { AreasWeigh }
{}

/// Two pieces whose ends move along x can't begin to cross unless an end comes to the other piece.
pub fn pieces_touch_before_they_cross()
    ensures { PiecesTouchFirst }
{}
