//! Joining boxes that have a point in common.
//!
//! Lists of boxes are divided by columns, halfway from the first box's end to the last one's start.
//! Before each division the boxes that cover all between are joined to what they touch and leave the
//! list, so that what is left is in one half mostly.
ghost use Rattle.std.specs.Prelude.{◌≡◌, ◌<◌, All, Contains, IfOk, OnOk, length, slice_index, ℕ};
ghost use Rattle.face_ring_laws.specs.Heads.{IsFinest};
ghost use Rattle.face_ring_laws.specs.Parts.{AreJoined};
ghost use Rattle.face_rings.specs.Forest.{IsForest, root_of};
ghost use Rattle.face_rings.specs.Joining.{AreByBottom, Grows, HasHeight, Joins};

use crate::bottoms::by_bottom;
use crate::covering::join_covering;
use crate::cut::Cut;
use crate::forest::{lone, settle, unite};
use crate::stretch::Stretch;
use lay_point::Rect;
use std::alloc::{AllocError, Global};

/// So many boxes aren't divided.
const FEW: usize = 12;

/// Lists are divided at most so many times.
const DEPTH: usize = 64;

/// Returns for each box the number of the first one that it is joined to, directly or through others: two
/// boxes are where they have a point in common. The time grows little faster than the number of boxes.
pub(crate) fn joined_heads(alloc: Global, boxes: &[Rect]) -> Result<Vec<usize>, AllocError>
    requires { All HasHeight boxes.now }
    ensures { IfOk result (λ heads. IsFinest (AreJoined boxes.now) (length boxes.now) heads.items) }
{
    let mut heads = lone(alloc, boxes.len())?;
    find_heads(alloc, boxes, &mut heads)?;
    Ok(heads)
}

/// Gives each of the lone numbers the first one whose box its own is joined to.
fn find_heads(alloc: Global, boxes: &[Rect], parents: &mut [usize]) -> Result<(), AllocError>
    requires each { length parents.old ≡ length boxes.now }
    requires lone { (k : ℕ) → k < length boxes.now → slice_index parents.old k ≡ k }
    requires height { All HasHeight boxes.now }
    ensures { OnOk result (IsFinest (AreJoined boxes.now) (length boxes.now) parents.new) }
{
    let numbers = by_bottom(alloc, boxes)?;
    join_all(alloc, boxes, parents, numbers, DEPTH)?;
    settle(parents);
    Ok(())
}

/// Joins the boxes of these numbers, whose list is divided at most `depth` times.
fn join_all(
    alloc: Global,
    boxes: &[Rect],
    parents: &mut [usize],
    numbers: Vec<usize>,
    depth: usize,
) -> Result<(), AllocError>
    requires forest { IsForest parents.old }
    requires each { length parents.old ≡ length boxes.now }
    requires height { All HasHeight boxes.now }
    requires inside { All (λ k. k < length boxes.now) numbers.items }
    requires by_bottom { AreByBottom boxes.now numbers.items }
    ensures { OnOk result (Joins boxes.now numbers.items parents.old parents.new) }
{
    if depth == 0 || numbers.len() <= FEW {
        join_pairs(boxes, parents, numbers.as_slice());
        return Ok(());
    }
    let stretch = Stretch::of(boxes, numbers.as_slice());
    join_covering(alloc, boxes, parents, stretch, numbers.as_slice())?;
    let cut = Cut::halving(stretch);
    let low = cut.low_part(alloc, boxes, numbers.as_slice())?;
    let high = cut.high_part(alloc, boxes, numbers.as_slice())?;
    join_all(alloc, boxes, parents, low, depth - 1)?;
    join_all(alloc, boxes, parents, high, depth - 1)
}

/// Joins to the box of number `one` those of the numbers that it touches.
pub(crate) fn join_to(boxes: &[Rect], parents: &mut [usize], one: usize, numbers: &[usize])
    requires forest { IsForest parents.old }
    requires each { length parents.old ≡ length boxes.now }
    requires one { one < length boxes.now }
    requires inside { All (λ k. k < length boxes.now) numbers.now }
    ensures grows { Grows boxes.now parents.old parents.new }
    ensures joined { (k : ℕ) → Contains numbers.now k → AreJoined boxes.now one k → root_of parents.new one ≡ root_of parents.new k }
{
    for number in numbers {
        if boxes[one].touches(boxes[*number]) {
            unite(parents, one, *number);
        }
    }
}

/// Joins the boxes, pair by pair.
fn join_pairs(boxes: &[Rect], parents: &mut [usize], numbers: &[usize])
    requires forest { IsForest parents.old }
    requires each { length parents.old ≡ length boxes.now }
    requires inside { All (λ k. k < length boxes.now) numbers.now }
    ensures { Joins boxes.now numbers.now parents.old parents.new }
{
    for one in numbers {
        join_to(boxes, parents, *one, numbers);
    }
}
