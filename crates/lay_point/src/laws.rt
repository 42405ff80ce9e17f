//! What holds of all whole numbers, as a call that does nothing.
ghost use Rattle.lay_point.specs.Laws.{
  FractionsRound,
  OnlyZeroGivesZero,
  ProductsAssociate,
  ProductsCommute,
  ProductsDistribute,
};

/// Whole numbers without bounds are an integral domain, and each fraction is rounded to one of them.
pub fn whole_numbers_have_laws()
    ensures commute { ProductsCommute }
    ensures associate { ProductsAssociate }
    ensures distribute { ProductsDistribute }
    ensures domain { OnlyZeroGivesZero }
    ensures round { FractionsRound }
{}
