//! What holds of every text that is refused, as a call that does nothing.
ghost use Rattle.cif_laws.specs.Checks.{ChecksComeInOrder};
ghost use Rattle.cif_laws.specs.Refusals.{FaultsAreWhereTheyStand};

/// A text that means a fault begins with good commands, and what stands behind them has the fault; or all its
/// commands are good, and a call has it.
pub fn faults_are_where_they_stand()
    ensures { FaultsAreWhereTheyStand }
{}

/// A command of the grammar has the fault of the first check that it fails, in one order for all commands.
pub fn checks_come_in_order()
    ensures { ChecksComeInOrder }
{}
