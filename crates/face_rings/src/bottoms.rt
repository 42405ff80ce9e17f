//! Boxes in the order of their lower sides.
ghost use Rattle.std.specs.Prelude.{◌≡◌, ◌<◌, All, Contains, IfOk, length, map, ℕ};
ghost use Rattle.face_rings.specs.Bottoms.{AreBottomsOf};
ghost use Rattle.face_rings.specs.Joining.{AreByBottom};

use lay_point::Rect;
use std::alloc::{AllocError, Global};

/// Where the lower side of a box is. They are in the order of their y, then of the boxes' numbers.
#[derive(Clone, Copy, Debug, PartialEq, Eq, PartialOrd, Ord)]
pub(crate) struct Bottom {
    /// The y of the lower side.
    pub y: i32,
    /// The number of the box.
    pub number: usize,
}

/// Returns the numbers of the boxes in the order of their lower sides.
pub(crate) fn by_bottom(alloc: Global, boxes: &[Rect]) -> Result<Vec<usize>, AllocError>
    ensures inside { IfOk result (λ numbers. All (λ k. k < length boxes.now) numbers.items) }
    ensures all { IfOk result (λ numbers. (k : ℕ) → k < length boxes.now → Contains numbers.items k) }
    ensures by_bottom { IfOk result (λ numbers. AreByBottom boxes.now numbers.items) }
{
    let bottoms = sorted_bottoms(alloc, boxes)?;
    numbers_of(alloc, &bottoms)
}

/// Returns the numbers of the boxes.
fn numbers_of(alloc: Global, bottoms: &[Bottom]) -> Result<Vec<usize>, AllocError>
    ensures { IfOk result (λ numbers. numbers.items ≡ map (λ b. b.number) bottoms.now) }
{
    let mut numbers = Vec::with_capacity(alloc, bottoms.len())?;
    for bottom in bottoms {
        numbers.push(bottom.number)?;
    }
    Ok(numbers)
}

/// Returns the lower sides of the boxes, in order.
fn sorted_bottoms(alloc: Global, boxes: &[Rect]) -> Result<Vec<Bottom>, AllocError>
    ensures { IfOk result (λ bottoms. AreBottomsOf boxes.now bottoms.items) }
{
    let mut bottoms = Vec::with_capacity(alloc, boxes.len())?;
    for (number, bounds) in boxes.iter().enumerate() {
        let y = bounds.low.y;
        bottoms.push(Bottom { y, number })?;
    }
    bottoms.sort_unstable();
    Ok(bottoms)
}
