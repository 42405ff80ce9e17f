//! What holds of the shapes of operations, as calls that do nothing.
ghost use Rattle.bool_rules.specs.ShapeLaws.{
  PartsAreUnique,
  PartsExist,
  ShapesAreDetermined,
  ShapesTellPlaces,
};

/// Rings have one list of parts, which can be computed.
pub fn parts_are_unique()
    ensures exist { PartsExist }
    ensures unique { PartsAreUnique }
{}

/// Of two flattened layers some shape of an operation has a place inside exactly where the
/// operation holds of the rounded layers there, at every place. Of edges the shapes have those of
/// the operation, each once. Whatever is rounded, linked and divided by the rules makes these
/// shapes.
pub fn shapes_tell_places()
    ensures places { ShapesTellPlaces }
    ensures determined { ShapesAreDetermined }
{}
