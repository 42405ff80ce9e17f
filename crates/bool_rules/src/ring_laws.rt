//! What holds of operations and rounded rings, as a call that does nothing.
ghost use Rattle.bool_rules.specs.Inside.{
  AnswersAreThoseOfRings,
  OwnersAreThoseOfRings,
  ShapesAreThoseOfRings,
};

/// The edges that list an owner cross the half line from a place as often, by parity, as all edges of its
/// rounded rings; so an operation's answer at a place is that of the rounded rings, and some shape of the
/// operation has the place inside exactly where they say so.
pub fn answers_are_those_of_rings()
    ensures owners { OwnersAreThoseOfRings }
    ensures answers { AnswersAreThoseOfRings }
    ensures shapes { ShapesAreThoseOfRings }
{}
