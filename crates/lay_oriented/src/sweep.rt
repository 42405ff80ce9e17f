//! Whether slants go round each place at most once, by a sweep over the heights.
ghost use Rattle.std.specs.Prelude.{
  ◌≡◌,
  ℤ,
  ◌+ℤ◌,
  ◌≤◌,
  IfOk,
  OnOk,
  length,
  true,
  [],
};
ghost use Rattle.lay_oriented.specs.Once.{AreOnce};
ghost use Rattle.lay_oriented.specs.Slants.{
  are_begun_from,
  are_by_height,
  counts,
  ending_above,
  is_sound_band,
  slant_count,
};

use crate::band::{are_by_height, begin_from, take_turns};
use crate::slant::Slant;
use std::alloc::{AllocError, Global};

/// Returns whether the slants, which are in order of the heights at which they begin, were found to go
/// round each place once or not at all. It isn't found where two of them cross or lie on one another.
pub(crate) fn are_once(alloc: Global, slants: &[Slant]) -> Result<bool, AllocError>
    ensures { IfOk result (λ found. found ≡ true → AreOnce slants.now) }
{
    let heights = heights_of(alloc, slants)?;
    let mut row = lowest(heights.as_slice());
    if !are_begun_from(slants, row) {
        return Ok(false);
    }
    let mut active = Vec::new(alloc);
    let mut left = slants;
    for height in heights.as_slice() {
        if !is_sound_band(active.as_slice(), left, row, *height) {
            return Ok(false);
        }
        active = ending_above(alloc, active.as_slice(), *height)?;
        left = add_begun(&mut active, left, *height)?;
        row = *height;
    }
    Ok(is_over(active.as_slice(), left))
}

/// Returns the first of the heights, or 0 if there is none.
fn lowest(heights: &[i32]) -> i32 {
    match heights.first() {
        None => 0,
        Some(height) => *height,
    }
}

/// Returns whether the slants begin at this height or above it, in order of the heights.
fn are_begun_from(slants: &[Slant], height: i32) -> bool
    ensures { result ≡ are_begun_from height slants.now }
{
    are_by_height(slants) && begin_from(slants, height)
}

/// Returns whether there is neither a slant that was begun nor another one.
fn is_over(active: &[Slant], left: &[Slant]) -> bool
    ensures active { result ≡ true → active.now ≡ [] }
    ensures left { result ≡ true → left.now ≡ [] }
{
    active.is_empty() && left.is_empty()
}

/// Returns whether the slants that were begun take turns up to this height, and none of the others
/// begins below it.
fn is_sound_band(active: &[Slant], left: &[Slant], row: i32, height: i32) -> bool
    ensures { result ≡ is_sound_band active.now left.now row height }
{
    row <= height && take_turns(active, row, height) && begin_from(left, height)
}

/// Returns the heights at which slants begin or end, in order.
pub(crate) fn heights_of(alloc: Global, slants: &[Slant]) -> Result<Vec<i32>, AllocError> {
    let mut heights = Vec::new(alloc);
    for slant in slants {
        heights.push(slant.low.y)?;
        heights.push(slant.high.y)?;
    }
    heights.sort_unstable();
    heights.dedup();
    Ok(heights)
}

/// Returns the slants that don't end at this height or below it.
pub(crate) fn ending_above(
    alloc: Global,
    slants: &[Slant],
    height: i32,
) -> Result<Vec<Slant>, AllocError>
    ensures { IfOk result (λ kept. kept.items ≡ ending_above height slants.now) }
{
    let mut kept = Vec::with_capacity(alloc, slants.len())?;
    let mut left = slants;
    while let Some((slant, behind)) = left.split_first() {
        if height < slant.high.y {
            kept.push(*slant)?;
        }
        left = behind;
    }
    Ok(kept)
}

/// Puts those of the slants that begin up to this height to their places, and returns the others.
pub(crate) fn add_begun<'a>(
    active: &mut Vec<Slant>,
    slants: &'a [Slant],
    height: i32,
) -> Result<&'a [Slant], AllocError>
    ensures sums { IfOk result (λ left. (k x y : ℤ) →
        counts k x y active.new.items +ℤ counts k x y left.now
        ≡ counts k x y active.old.items +ℤ counts k x y slants.now) }
    ensures order { are_by_height slants.now ≡ true → IfOk result (λ left. are_by_height left.now ≡ true) }
{
    let mut left = slants;
    while let Some((slant, behind)) = left.split_first() {
        if slant.low.y > height {
            return Ok(left);
        }
        add_slant(active, *slant)?;
        left = behind;
    }
    Ok(left)
}

/// Puts the slant to its place among those of the height at which it begins.
fn add_slant(active: &mut Vec<Slant>, slant: Slant) -> Result<(), AllocError>
    ensures { OnOk result ((k x y : ℤ) → counts k x y active.new.items ≡ slant_count k x y slant +ℤ counts k x y active.old.items) }
{
    let place = place_of(active.as_slice(), slant);
    active.insert(place, slant)?;
    Ok(())
}

/// Returns how many of the slants, from right to left, are right of this one.
fn place_of(slants: &[Slant], slant: Slant) -> usize
    ensures { result ≤ length slants.now }
{
    slants.partition_point(|other: &Slant| other.is_right_of(slant))
}
