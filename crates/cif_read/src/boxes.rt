//! What a box draws.
ghost use Rattle.std.specs.Prelude.{◌≡◌, ◌≤◌, ◌*◌, unsigned_abs, false};
ghost use Rattle.cif_grammar.specs.declared.number.TheConstants.{MAX_MAGNITUDE};
ghost use Rattle.cif_read.specs.Boxes.{
  box_at,
  high_coordinate,
  high_corner,
  is_askew,
  is_big_box,
  is_flat,
  is_on_axis,
  is_upright,
};
ghost use Rattle.cif_read.specs.Boxes.{
  is_whole_box,
  is_whole_side,
  is_zero,
  low_coordinate,
  low_corner,
  side_x,
  side_y,
};
ghost use Rattle.lay_point.specs.Turns.{within_range};

use crate::fault::FaultKind;
use crate::polygon::{is_above_written, is_too_big};
use crate::ratio::{Ratio, doubled};
use cif_grammar::{BoxNumbers, Number, Vertex};
use lay_point::{Point, Ring};
use std::alloc::Global;

/// Returns whether some number of the box is above all that a text may write.
#[tactic(auto, unfolding(crate::specs::Boxes::is_big_box))]
pub(crate) fn is_big_box(numbers: BoxNumbers) -> bool
    ensures { result ≡ is_big_box numbers }
{
    is_above_written(numbers.length)
        || is_above_written(numbers.width)
        || is_too_big(numbers.centre)
        || match numbers.direction {
            Some(direction) => is_too_big(direction),
            None => false,
        }
}

/// Returns whether the direction of the box isn't along an axis.
pub(crate) fn is_askew(numbers: BoxNumbers) -> bool
    ensures { result ≡ is_askew numbers }
{
    match numbers.direction {
        Some(direction) => !is_on_axis(direction),
        None => false,
    }
}

/// Returns whether exactly one of the two numbers is zero.
pub(crate) fn is_on_axis(direction: Vertex) -> bool
    ensures { result ≡ is_on_axis direction }
{
    is_zero(direction.x) != is_zero(direction.y)
}

pub(crate) fn is_zero(number: Number) -> bool
    ensures { result ≡ is_zero number }
{
    number.magnitude == 0
}

/// Returns the ring of the box, or `None` where it is dropped.
#[tactic(auto, unfolding(crate::specs::Boxes::box_at))]
pub(crate) fn box_ring(
    alloc: Global,
    scale: Ratio,
    numbers: BoxNumbers,
) -> Result<Option<Ring>, FaultKind>
    requires { is_big_box numbers ≡ false }
    ensures { result ≡ box_at scale numbers }
{
    if !is_whole_box(scale, numbers) {
        return Err(FaultKind::OffGrid);
    }
    let low = low_corner(scale, numbers).ok_or(FaultKind::TooBig)?;
    let high = high_corner(scale, numbers).ok_or(FaultKind::TooBig)?;
    if is_flat(numbers) {
        return Ok(None);
    }
    Ok(Some(Ring::rectangle(alloc, low, high)))
}

fn is_flat(numbers: BoxNumbers) -> bool
    ensures { result ≡ is_flat numbers }
{
    numbers.length == 0 || numbers.width == 0
}

/// Returns whether the length of the box runs along the y axis.
fn is_upright(numbers: BoxNumbers) -> bool
    ensures { result ≡ is_upright numbers }
{
    match numbers.direction {
        Some(direction) => is_zero(direction.x),
        None => false,
    }
}

/// Returns the side along the x axis.
fn side_x(numbers: BoxNumbers) -> u32
    ensures { result ≡ side_x numbers }
{
    if is_upright(numbers) {
        numbers.width
    } else {
        numbers.length
    }
}

/// Returns the side along the y axis.
fn side_y(numbers: BoxNumbers) -> u32
    ensures { result ≡ side_y numbers }
{
    if is_upright(numbers) {
        numbers.length
    } else {
        numbers.width
    }
}

/// Returns whether all four places of the sides are whole.
#[tactic(auto, using(crate::proofs::BoxLemmas::small_parts))]
fn is_whole_box(scale: Ratio, numbers: BoxNumbers) -> bool
    requires { is_big_box numbers ≡ false }
    ensures { result ≡ is_whole_box scale numbers }
{
    is_whole_side(scale, numbers.centre.x, side_x(numbers))
        && is_whole_side(scale, numbers.centre.y, side_y(numbers))
}

fn is_whole_side(scale: Ratio, centre: Number, side: u32) -> bool
    requires centre { centre.magnitude ≤ MAX_MAGNITUDE }
    requires side { side ≤ MAX_MAGNITUDE }
    ensures { result ≡ is_whole_side scale centre side }
{
    scale.is_whole(low_coordinate(centre, side)) && scale.is_whole(high_coordinate(centre, side))
}

/// Returns the lower left corner, or `None` where it is out of range.
#[tactic(auto, using(crate::proofs::BoxLemmas::small_parts))]
fn low_corner(scale: Ratio, numbers: BoxNumbers) -> Option<Point>
    requires { is_big_box numbers ≡ false }
    ensures { result ≡ within_range (low_corner scale numbers) }
{
    Point::within_range(
        scale.scaled(low_coordinate(numbers.centre.x, side_x(numbers))),
        scale.scaled(low_coordinate(numbers.centre.y, side_y(numbers))),
    )
}

/// Returns the upper right corner, or `None` where it is out of range.
#[tactic(auto, using(crate::proofs::BoxLemmas::small_parts))]
fn high_corner(scale: Ratio, numbers: BoxNumbers) -> Option<Point>
    requires { is_big_box numbers ≡ false }
    ensures { result ≡ within_range (high_corner scale numbers) }
{
    Point::within_range(
        scale.scaled(high_coordinate(numbers.centre.x, side_x(numbers))),
        scale.scaled(high_coordinate(numbers.centre.y, side_y(numbers))),
    )
}

/// Returns the lower end of a side round its centre.
fn low_coordinate(centre: Number, side: u32) -> i64
    requires centre { centre.magnitude ≤ MAX_MAGNITUDE }
    requires side { side ≤ MAX_MAGNITUDE }
    ensures value { result ≡ low_coordinate centre side }
    ensures bound { unsigned_abs result ≤ 3 * MAX_MAGNITUDE }
{
    doubled(centre) - i64::from(side)
}

/// Returns the upper end of a side round its centre.
fn high_coordinate(centre: Number, side: u32) -> i64
    requires centre { centre.magnitude ≤ MAX_MAGNITUDE }
    requires side { side ≤ MAX_MAGNITUDE }
    ensures value { result ≡ high_coordinate centre side }
    ensures bound { unsigned_abs result ≤ 3 * MAX_MAGNITUDE }
{
    doubled(centre) + i64::from(side)
}
