//! What holds of rounding, as a call that does nothing.
ghost use Rattle.snap_laws.specs.RoundLaws.{
  RoundedIsInRange,
  RoundedIsRounded,
  RoundingExists,
  RoundingIsComputed,
  RoundingIsUnique,
};

/// Rings of shapes have one rounding, which can be computed. Its edges are clean and in range.
pub fn roundings_are_unique()
    ensures exists { RoundingExists }
    ensures unique { RoundingIsUnique }
    ensures computed { RoundingIsComputed }
    ensures rounded { RoundedIsRounded }
    ensures in_range { RoundedIsInRange }
{}
