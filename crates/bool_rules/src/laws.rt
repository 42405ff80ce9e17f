//! What holds of operations on layers of a layout, as a call that does nothing.
ghost use Rattle.bool_rules.specs.Laws.{
  BooleansAreDrawn,
  BooleansReadWhatIsBelow,
  BooleansTellPlaces,
  FlatteningsAreFlat,
};

/// An operation on two layers below a cell depends on what is below that cell alone. Its shapes are such as
/// a layout may hold, and a place is inside some of them exactly where the operation holds of the rounded
/// layers there.
pub fn booleans_have_laws()
    ensures flat { FlatteningsAreFlat }
    ensures reads { BooleansReadWhatIsBelow }
    ensures places { BooleansTellPlaces }
    ensures drawn { BooleansAreDrawn }
{}
