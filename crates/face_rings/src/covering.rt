//! Joining boxes that cover a stretch to all that they touch, by passes from below.
//!
//! A pass keeps open boxes: whatever comes later, and touches one that came, touches an open one in that
//! one's tree. A box that covers the stretch touches the open ones that are high enough, and of these and
//! it the highest stays open alone.
ghost use Rattle.std.specs.Prelude.{◌≡◌, ◌⊎◌, ◌<◌, ◌≤ℤ◌, All, Contains, OnOk, length, ℕ};
ghost use Rattle.face_ring_laws.specs.Parts.{AreJoined};
ghost use Rattle.face_rings.specs.Forest.{IsForest, root_of};
ghost use Rattle.face_rings.specs.Joining.{
  AreByBottom,
  AreCoversJoined,
  AreJoinedDown,
  AreJoinedUp,
  Grows,
  HasHeight,
  IsHighestOf,
  IsStretchOf,
  numbered_box,
};

use crate::joining::join_to;
use crate::stretch::Stretch;
use lay_point::Rect;
use std::alloc::{AllocError, Global};

/// Joins each box that covers the stretch to all that it touches. The time grows with the number of
/// boxes.
pub(crate) fn join_covering(
    alloc: Global,
    boxes: &[Rect],
    parents: &mut [usize],
    stretch: Stretch,
    numbers: &[usize],
) -> Result<(), AllocError>
    requires forest { IsForest parents.old }
    requires each { length parents.old ≡ length boxes.now }
    requires height { All HasHeight boxes.now }
    requires inside { All (λ k. k < length boxes.now) numbers.now }
    requires by_bottom { AreByBottom boxes.now numbers.now }
    requires stretch { IsStretchOf boxes.now numbers.now stretch }
    ensures grows { OnOk result (Grows boxes.now parents.old parents.new) }
    ensures joined { OnOk result (AreCoversJoined boxes.now stretch numbers.now parents.new) }
{
    join_down(alloc, boxes, parents, stretch, numbers)?;
    join_up(alloc, boxes, parents, stretch, numbers)
}

/// Joins each box that covers the stretch to those before it that it touches.
fn join_down(
    alloc: Global,
    boxes: &[Rect],
    parents: &mut [usize],
    stretch: Stretch,
    numbers: &[usize],
) -> Result<(), AllocError>
    requires forest { IsForest parents.old }
    requires each { length parents.old ≡ length boxes.now }
    requires height { All HasHeight boxes.now }
    requires inside { All (λ k. k < length boxes.now) numbers.now }
    requires by_bottom { AreByBottom boxes.now numbers.now }
    requires stretch { IsStretchOf boxes.now numbers.now stretch }
    ensures grows { OnOk result (Grows boxes.now parents.old parents.new) }
    ensures joined { OnOk result (AreJoinedDown boxes.now stretch numbers.now parents.new) }
{
    let mut opened: Vec<usize> = Vec::new(alloc);
    for number in numbers {
        if stretch.is_covered_by(boxes[*number]) {
            take_over(boxes, parents, *number, &mut opened)?;
        } else {
            opened.push(*number)?;
        }
    }
    Ok(())
}

/// Joins each box to those before it that cover the stretch and that it touches.
fn join_up(
    alloc: Global,
    boxes: &[Rect],
    parents: &mut [usize],
    stretch: Stretch,
    numbers: &[usize],
) -> Result<(), AllocError>
    requires forest { IsForest parents.old }
    requires each { length parents.old ≡ length boxes.now }
    requires height { All HasHeight boxes.now }
    requires inside { All (λ k. k < length boxes.now) numbers.now }
    requires by_bottom { AreByBottom boxes.now numbers.now }
    requires stretch { IsStretchOf boxes.now numbers.now stretch }
    ensures grows { OnOk result (Grows boxes.now parents.old parents.new) }
    ensures joined { OnOk result (AreJoinedUp boxes.now stretch numbers.now parents.new) }
{
    let mut opened: Vec<usize> = Vec::new(alloc);
    for number in numbers {
        if stretch.is_covered_by(boxes[*number]) {
            take_over(boxes, parents, *number, &mut opened)?;
        } else {
            join_to(boxes, parents, *number, &opened);
        }
    }
    Ok(())
}

/// Joins the box to the open ones that it touches, and leaves of these and it the highest one open.
fn take_over(
    boxes: &[Rect],
    parents: &mut [usize],
    one: usize,
    opened: &mut Vec<usize>,
) -> Result<(), AllocError>
    requires forest { IsForest parents.old }
    requires each { length parents.old ≡ length boxes.now }
    requires one { one < length boxes.now }
    requires inside { All (λ k. k < length boxes.now) opened.old.items }
    ensures grows { Grows boxes.now parents.old parents.new }
    ensures joined { (k : ℕ) → Contains opened.old.items k → AreJoined boxes.now one k
        → root_of parents.new one ≡ root_of parents.new k }
    ensures highest { OnOk result (IsHighestOf boxes.now one opened.old.items opened.new.items) }
{
    join_to(boxes, parents, one, opened);
    let top = highest(boxes, one, opened);
    opened.clear();
    opened.push(top)?;
    Ok(())
}

/// Returns the number of the highest of the boxes and the one of number `one`.
fn highest(boxes: &[Rect], one: usize, numbers: &[usize]) -> usize
    requires one { one < length boxes.now }
    requires inside { All (λ k. k < length boxes.now) numbers.now }
    ensures among { (result ≡ one) ⊎ Contains numbers.now result }
    ensures above { (numbered_box boxes.now one).high.y ≤ℤ (numbered_box boxes.now result).high.y }
    ensures highest { (k : ℕ) → Contains numbers.now k
        → (numbered_box boxes.now k).high.y ≤ℤ (numbered_box boxes.now result).high.y }
{
    let mut top = one;
    for number in numbers {
        top = higher(boxes, top, *number);
    }
    top
}

/// Returns the number of the higher one of two boxes.
fn higher(boxes: &[Rect], one: usize, other: usize) -> usize
    requires one { one < length boxes.now }
    requires other { other < length boxes.now }
    ensures either { (result ≡ one) ⊎ (result ≡ other) }
    ensures first { (numbered_box boxes.now one).high.y ≤ℤ (numbered_box boxes.now result).high.y }
    ensures second { (numbered_box boxes.now other).high.y ≤ℤ (numbered_box boxes.now result).high.y }
{
    let (first, second) = (boxes[one], boxes[other]);
    if first.high.y < second.high.y {
        other
    } else {
        one
    }
}
