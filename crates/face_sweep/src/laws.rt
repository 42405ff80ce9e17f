//! What a sweep from point to point rests on, as calls that do nothing.
ghost use Rattle.face_sweep.specs.Nexts.{LevelNext, NextTells, StatusBehind};
ghost use Rattle.face_sweep.specs.Points.{
  LevelBehind,
  PassedBehind,
  PlacesTell,
  PointsFollow,
  PointsPass,
  RowsBegin,
  RowsEnd,
  TurnsOrder,
};

/// At a point of the sweep one search tells which edges of the row are left of the point, which end there, and
/// which are right of it; and with those that end there replaced by those that begin there, the row is that of
/// the next point.
pub fn points_pass()
    ensures places { PlacesTell }
    ensures points { PointsPass }
    ensures follow { PointsFollow }
    ensures rows { RowsEnd }
    ensures rows_begin { RowsBegin }
    ensures behind { PassedBehind }
    ensures level { LevelBehind }
    ensures order { TurnsOrder }
{}

/// Right of an edge holds what holds left of the next edge of its row, or nothing where there is none; above a
/// level edge the first edge right of its left end tells.
pub fn nexts_tell()
    ensures status { StatusBehind }
    ensures next { NextTells }
    ensures level { LevelNext }
{}
