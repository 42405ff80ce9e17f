//! The law of the order, as a call that does nothing.
ghost use Rattle.lay_flat.specs.Order.{ShapesAreNumberedInOrder};

/// Of each layout, cell and layer: walks rise strictly by the ids of their calls, a beginning first, and the
/// shapes that are numbered rise strictly by their walks, then by their ids.
pub fn shapes_are_numbered_in_order()
    ensures { ShapesAreNumberedInOrder }
{}
