//! How a call turns what it calls.
ghost use Rattle.std.specs.Prelude.{◌≡◌, ◌≤◌, ◌+ℤ◌, ◌^◌, ◌<ℤ◌, false, pos, neg_ℤ};
ghost use Rattle.std.specs.List.{list_all, list_any};
ghost use Rattle.lay_point.specs.Turns.{composed, unturned};
ghost use Rattle.cif_read.specs.Calls.{
  call_turn,
  is_askew_change,
  is_big_change,
  is_whole_change,
  quarter_to,
};
ghost use Rattle.cif_grammar.specs.declared.calls.Change.TheVariants as changes_of;
ghost use Rattle.cif_read.specs.Calls.{turn_changed_by, turn_in_range, turn_of};

use crate::boxes::{is_on_axis, is_zero};
use crate::fault::FaultKind;
use crate::polygon::is_too_big;
use crate::ratio::{Ratio, doubled};
use cif_grammar::{Change, Vertex};
use lay_point::{Point, Quarter, Turn};

/// Returns whether some number of the changes is above all that a text may write.
pub(crate) fn are_big(changes: &[Change]) -> bool
    ensures { result ≡ list_any is_big_change changes.now }
{
    changes.iter().any(|change| is_big_change(*change))
}

/// Returns whether a number of the change is above all that a text may write.
fn is_big_change(change: Change) -> bool
    ensures { result ≡ is_big_change change }
{
    match change {
        Change::Shift(vertex) | Change::Direction(vertex) => is_too_big(vertex),
        Change::MirrorX | Change::MirrorY => false,
    }
}

/// Returns the turn of a call with these changes.
#[tactic(auto, unfolding(crate::specs::Calls::call_turn))]
pub(crate) fn call_turn(scale: Ratio, changes: &[Change]) -> Result<Turn, FaultKind>
    requires { list_any is_big_change changes.now ≡ false }
    ensures { result ≡ call_turn scale changes.now }
{
    if are_askew(changes) {
        return Err(FaultKind::OffAxis);
    }
    if !are_whole(scale, changes) {
        return Err(FaultKind::OffGrid);
    }
    turned_by(scale, changes).ok_or(FaultKind::TooBig)
}

/// Returns whether some change is to a direction that isn't along an axis.
fn are_askew(changes: &[Change]) -> bool
    ensures { result ≡ list_any is_askew_change changes.now }
{
    changes.iter().any(|change| is_askew_change(*change))
}

/// Returns whether the change is to a direction that isn't along an axis.
fn is_askew_change(change: Change) -> bool
    ensures { result ≡ is_askew_change change }
{
    match change {
        Change::Direction(vertex) => !is_on_axis(vertex),
        _ => false,
    }
}

/// Returns whether all distances of the changes are whole.
fn are_whole(scale: Ratio, changes: &[Change]) -> bool
    requires { list_any is_big_change changes.now ≡ false }
    ensures { result ≡ list_all (is_whole_change scale) changes.now }
{
    for change in changes {
        if !is_whole_change(scale, *change) {
            return false;
        }
    }
    true
}

fn is_whole_change(scale: Ratio, change: Change) -> bool
    requires { is_big_change change ≡ false }
    ensures { result ≡ is_whole_change scale change }
{
    match change {
        Change::Shift(vertex) => scale.is_whole_vertex(vertex),
        _ => true,
    }
}

/// Returns the turn that makes the changes one after the other, or `None` where it leaves the range.
#[tactic(auto, unfolding(crate::specs::Calls::turn_changed_by))]
fn turned_by(scale: Ratio, changes: &[Change]) -> Option<Turn>
    requires { list_any is_big_change changes.now ≡ false }
    ensures { result ≡ turn_changed_by scale unturned changes.now }
{
    let mut turn = turned(false, Quarter::R0);
    for change in changes {
        turn = changed(scale, turn, *change)?;
    }
    Some(turn)
}

/// Returns the turn with one more change, or `None` where that leads out of range.
fn changed(scale: Ratio, turn: Turn, change: Change) -> Option<Turn>
    requires { is_big_change change ≡ false }
    ensures { result ≡ turn_in_range (composed turn (turn_of scale change)) }
{
    match change {
        Change::Shift(vertex) => shifted(scale, turn, vertex),
        Change::MirrorX => turn.then(turned(true, Quarter::R0)),
        Change::MirrorY => turn.then(turned(true, Quarter::R180)),
        Change::Direction(vertex) => turn.then(turned(false, quarter_to(vertex))),
    }
}

/// Returns the turn, shifted by the distances of the vertex, or `None` where that leads out of range.
fn shifted(scale: Ratio, turn: Turn, vertex: Vertex) -> Option<Turn>
    requires { is_big_change (changes_of.Shift vertex) ≡ false }
    ensures { result ≡ turn_in_range (composed turn (turn_of scale (changes_of.Shift vertex))) }
{
    let Some(shift) = Point::within_range(
        moved(turn.shift.x, scale.scaled(doubled(vertex.x))),
        moved(turn.shift.y, scale.scaled(doubled(vertex.y))),
    ) else {
        return None;
    };
    Some(Turn { shift, ..turn })
}

/// Returns the coordinate, moved by a distance.
fn moved(coordinate: i32, distance: i128) -> i128
    requires low { neg_ℤ (pos (2 ^ 64)) <ℤ distance }
    requires high { distance <ℤ pos (2 ^ 64) }
    ensures { result ≡ coordinate +ℤ distance }
{
    i128::from(coordinate) + distance
}

/// Returns the turn round the origin.
fn turned(mirror: bool, quarter: Quarter) -> Turn
    ensures { result ≡ record { mirror = mirror; quarter = quarter; shift = record { x = pos 0; y = pos 0 } } }
{
    Turn {
        mirror,
        quarter,
        shift: Point { x: 0, y: 0 },
    }
}

/// Returns the quarter turns that take the x axis to a direction along an axis.
fn quarter_to(direction: Vertex) -> Quarter
    ensures { result ≡ quarter_to direction }
{
    match (
        is_zero(direction.y),
        direction.x.negative,
        direction.y.negative,
    ) {
        (true, false, _) => Quarter::R0,
        (true, true, _) => Quarter::R180,
        (false, _, false) => Quarter::R90,
        (false, _, true) => Quarter::R270,
    }
}
