//! What holds of the commands that compute operations on layers, as calls that do nothing.
ghost use Rattle.undo_laws.specs.Laws.{
  BooleansHoldWhereAsked,
  BooleansLeaveOthers,
  BooleansReplaceShapes,
  RunsKeepIdsFree,
};
ghost use Rattle.undo_laws.specs.Staying.{OperationsStay};

/// Behind an accepted operation the shapes of its cell on its layer are those of the operation, and
/// no others. A place is inside one of them, or inside a path that is written for one, exactly
/// where the operation holds of the rounded layers. Shapes elsewhere and all calls stay, where the
/// ids of the new shapes are free; and these are free where the layout at first had no item with an
/// id of the transaction.
pub fn commands_draw_operations()
    ensures replaced { BooleansReplaceShapes }
    ensures places { BooleansHoldWhereAsked }
    ensures others { BooleansLeaveOthers }
    ensures free { RunsKeepIdsFree }
{}

/// In a history that began on a sound layout, an operation of a live transaction ran on the replay of
/// the live ones before it. At the end of the history the shapes of its cell on its layer, and the
/// paths that are written for them, still hold where the operation did, unless its transaction changed
/// them behind it or a later live one wrote there. All else was left as it was, where the first
/// layout has no id of the transaction.
pub fn operations_stay_in_histories()
    ensures { OperationsStay }
{}
