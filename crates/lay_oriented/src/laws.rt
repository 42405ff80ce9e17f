//! What holds of winding numbers, as a call that does nothing.
ghost use Rattle.lay_oriented.specs.Laws.{
  AddsUp,
  Cancels,
  HasParity,
  IsThatOfBridged,
  KeepsOutOrder,
};

/// The winding number is odd where the parity is. It is a sum over the edges in any order, in which an
/// edge and its reverse cancel, and that of the one path round rings is that of the rings.
pub fn winding_has_laws()
    ensures parity { HasParity }
    ensures order { KeepsOutOrder }
    ensures sum { AddsUp }
    ensures reverse { Cancels }
    ensures bridged { IsThatOfBridged }
{}
