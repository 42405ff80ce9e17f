//! What holds of the edges of operations, as a call that does nothing.
ghost use Rattle.face_rows.specs.Operations.{OperationsTellAnswers};

/// Of clean rounded inputs a place is to the left of an odd number of an operation's edges exactly where the
/// operation holds there. An even number of them stands at each point, and they are in order.
pub fn operations_have_laws()
    ensures { OperationsTellAnswers }
{}
