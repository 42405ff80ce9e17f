//! What holds of an operation's edges, as a call that does nothing.
ghost use Rattle.face_rows.specs.Laws.{
  InputsAreTheirShapes,
  OperationsAreAmong,
  OperationsAreEven,
  OperationsRise,
  OperationsTellPlaces,
};

/// Of clean rounded edges those of an operation tell its answer: a place is to the left of an odd number of
/// them exactly where the operation holds of the rounded inputs there. An even number of them stands at each
/// point, and they are in order, so they can be linked to rings.
pub fn operations_tell_places()
    ensures operations { OperationsTellPlaces }
    ensures inputs { InputsAreTheirShapes }
    ensures even { OperationsAreEven }
    ensures rising { OperationsRise }
    ensures among { OperationsAreAmong }
{}
