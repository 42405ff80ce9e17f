//! The laws, as a call that does nothing.
ghost use Rattle.undo_laws.specs.Owed.{FootprintsAreOwed};

/// Each element of an accepted command is one that it looked at or wrote, by the kind of the command; each element
/// of a run's footprint is one of its commands'; and layouts that agree on a footprint are found to.
pub fn footprints_are_owed()
    ensures { FootprintsAreOwed }
{}
